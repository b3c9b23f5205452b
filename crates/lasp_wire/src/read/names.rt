//! The names of sources.

ghost use Rattle.std.specs.Prelude.{◌≡◌, IfOk, if◌then◌else◌, Some, None};
ghost use Rattle.lasp_wire.specs.Prelude.{option_map, is_name, name_at, Gives};

use super::numbers::{bytes_at, u8_in};
use super::values::utf8_of;
use crate::refused::ReadError;
use lasp_value::Name;
use model_wire::WireWhy;
use std::alloc::{AllocError, Global};

/// The name that the bytes spell, if they are of a name's shape.
#[tactic(auto, using(crate::proofs::Names::names_are_utf8))]
fn name_of(alloc: Global, bytes: &[u8]) -> Result<Option<Name>, AllocError>
    ensures { IfOk result (λ name. option_map (λ n. n) name ≡ (if is_name bytes.now then Some bytes.now else None)) }
{
    match utf8_of(bytes) {
        Some(text) => Name::of(alloc, text),
        None => Ok(None),
    }
}

/// A name, with its length before it.
#[tactic(auto, unfolding(model_wire::specs::Message::name_at))]
pub fn name_in(alloc: Global, bytes: &[u8]) -> Result<(Name, &[u8]), ReadError>
    ensures { Gives (λ x. (x.0, x.1.now)) result (name_at bytes.now) }
{
    let (len, rest) = u8_in(bytes, 1, 32)?;
    let (field, after) = bytes_at(rest, len as usize)?;
    match name_of(alloc, field)? {
        Some(name) => Ok((name, after)),
        None => Err(ReadError::At(rest.len(), WireWhy::Text)),
    }
}
