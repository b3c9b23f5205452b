//! The bytes of a message.

ghost use Rattle.std.specs.Prelude.{◌≡◌, ◌++◌, ◌∷◌, [], IfOk, OnOk, codes, flat_map, length};
ghost use Rattle.lasp_wire.specs.Prelude.{number, spelled, spelled_counts, spelled_source};

use super::counts::Counts;
use super::message::Message;
use super::write;
use std::alloc::{AllocError, Global};

/// The one spelling of a message in version 2. It costs one pass, and for each set a list of its rows' addresses beside the bytes, which is sorted.
#[tactic(auto, unfolding(model_graph::specs::Spelling::spelled))]
pub fn encode(alloc: Global, m: &Message) -> Result<Vec<u8>, AllocError>
    ensures { IfOk result (λ bytes. bytes.items ≡ spelled m.now) }
{
    m.recall();
    let mut out = Vec::new(alloc);
    put_beginning(&mut out)?;
    write::put_u8(&mut out, m.counts().len() as u8)?;
    put_counts(&mut out, m.counts())?;
    put_sources(&mut out, m)?;
    Ok(out)
}

/// `LASP` and the version.
fn put_beginning(out: &mut Vec<u8>) -> Result<(), AllocError>
    ensures { OnOk result (out.new.items ≡ out.old.items ++ (codes "LASP" ++ 2 ∷ [])) }
{
    out.extend_from_slice(b"LASP\x02")
}

/// Appends counts, eight bytes each. After want of memory a part may have been appended.
pub fn put_counts(out: &mut Vec<u8>, counts: &Counts) -> Result<(), AllocError>
    ensures { OnOk result (out.new.items ≡ out.old.items ++ spelled_counts counts.now) }
{
    let items = counts.as_slice();
    for count in items {
        write::put_u64(out, *count)?;
    }
    Ok(())
}

/// Appends the sources of a message as version 2 has them, with their number before them. After want of memory a part may have been appended.
pub fn put_sources(out: &mut Vec<u8>, m: &Message) -> Result<(), AllocError>
    ensures { OnOk result (out.new.items ≡ out.old.items ++ (number 1 (length m.now.sources) ++ flat_map spelled_source m.now.sources)) }
{
    m.recall();
    write::put_u8(out, m.len() as u8)?;
    write::put_sources(out, m.sources())
}
