//! The bytes of a delta.

ghost use Rattle.std.specs.Prelude.{◌≡◌, ◌++◌, ◌∷◌, [], IfOk, OnOk, codes, length};
ghost use Rattle.model_graph.specs.Spelling.{number, spelled_counts};
ghost use Rattle.model_deltas.specs.Spelling.{spelled_delta};

use super::delta::Delta;
use lasp_wire::{put_counts, put_sources};
use std::alloc::{AllocError, Global};

/// The one spelling of a delta. It costs one pass, and for each set a list of its rows' addresses beside the bytes, which is sorted.
#[tactic(auto, unfolding(model_deltas::specs::Spelling::spelled_delta))]
pub fn encode_delta(alloc: Global, delta: &Delta) -> Result<Vec<u8>, AllocError>
    ensures { IfOk result (λ bytes. bytes.items ≡ spelled_delta delta.now) }
{
    delta.recall();
    let mut out = Vec::new(alloc);
    put_head(&mut out, delta.from().len() as u8)?;
    put_span(&mut out, delta)?;
    put_sources(&mut out, delta.carried())?;
    Ok(out)
}

/// `LASD`, the version and the number of nodes.
fn put_head(out: &mut Vec<u8>, nodes: u8) -> Result<(), AllocError>
    ensures { OnOk result (out.new.items ≡ out.old.items ++ ((codes "LASD" ++ 1 ∷ []) ++ number 1 nodes)) }
{
    out.extend_from_slice(b"LASD\x01")?;
    out.extend_from_slice(&nodes.to_be_bytes())
}

/// The counts from which the delta goes on, and those to which it leads.
fn put_span(out: &mut Vec<u8>, delta: &Delta) -> Result<(), AllocError>
    ensures { OnOk result (out.new.items ≡ out.old.items ++ (spelled_counts delta.now.from ++ spelled_counts delta.now.counts)) }
{
    put_counts(out, delta.from())?;
    put_counts(out, delta.carried().counts())
}
