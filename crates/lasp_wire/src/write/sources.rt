//! The sources of a message.

ghost use Rattle.std.specs.Prelude.{◌≡◌, ◌≤◌, ◌++◌, OnOk, flat_map, length, map};
ghost use Rattle.lasp_wire.specs.Prelude.{AllByRecursion, number, spelled_source, sent_of, IsShortSource};

use super::numbers::put_u8;
use super::states::put_state;
use crate::source::Source;
use lasp_value::Name;
use std::alloc::AllocError;

/// A name with its length before it.
fn put_name(out: &mut Vec<u8>, name: &Name) -> Result<(), AllocError>
    requires { length name.now ≤ 32 }
    ensures { OnOk result (out.new.items ≡ out.old.items ++ (number 1 (length name.now) ++ name.now)) }
{
    put_u8(out, name.len() as u8)?;
    out.extend_from_slice(name.as_str().as_bytes())
}

fn put_source(out: &mut Vec<u8>, source: &Source) -> Result<(), AllocError>
    requires { IsShortSource source.now }
    ensures { OnOk result (out.new.items ≡ out.old.items ++ spelled_source (sent_of source.now)) }
{
    put_name(out, &source.name)?;
    put_state(out, &source.state)
}

pub fn put_sources(out: &mut Vec<u8>, sources: &[Source]) -> Result<(), AllocError>
    requires { AllByRecursion IsShortSource sources.now }
    ensures { OnOk result (out.new.items ≡ out.old.items ++ flat_map spelled_source (map sent_of sources.now)) }
{
    for source in sources {
        put_source(out, source)?;
    }
    Ok(())
}
