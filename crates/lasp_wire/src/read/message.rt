//! Whole messages.

ghost use Rattle.std.specs.Prelude.{◌≡◌, map};
ghost use Rattle.lasp_wire.specs.Prelude.{magic_at, body_at, version_at, message_at, read_message, Gives, parts_of};

use super::numbers::u8_at;
use super::sequence::counts_in;
use super::sources::sources_in;
use crate::refused::ReadError;
use crate::source::Source;
use model_wire::WireWhy;
use std::alloc::Global;

/// The parts of a message.
#[derive(Drop)]
pub struct Parts {
    pub counts: Vec<u64>,
    pub(crate) sources: Vec<Source>,
}

/// A byte that has to be this one.
pub fn magic_in(bytes: &[u8], magic: u8) -> Result<(u8, &[u8]), ReadError>
    ensures { Gives (λ x. (x.0, x.1.now)) result (magic_at magic bytes.now) }
{
    let (n, rest) = u8_at(bytes)?;
    if n == magic {
        Ok((n, rest))
    } else {
        Err(ReadError::At(bytes.len(), WireWhy::Magic))
    }
}

/// `LASP` and the version.
#[tactic(auto, unfolding(model_wire::specs::Message::version_at))]
fn version_in(bytes: &[u8]) -> Result<(u8, &[u8]), ReadError>
    ensures { Gives (λ x. (x.0, x.1.now)) result (version_at bytes.now) }
{
    let (_, rest) = magic_in(bytes, b'L')?;
    let (_, rest) = magic_in(rest, b'A')?;
    let (_, rest) = magic_in(rest, b'S')?;
    let (_, rest) = magic_in(rest, b'P')?;
    let (version, after) = u8_at(rest)?;
    if version == 1 || version == 2 {
        Ok((version, after))
    } else {
        Err(ReadError::At(rest.len(), WireWhy::Magic))
    }
}

/// What stands behind the version.
#[tactic(auto, unfolding(model_wire::specs::Message::body_at))]
fn body_in(alloc: Global, version: u8, bytes: &[u8]) -> Result<(Parts, &[u8]), ReadError>
    ensures { Gives (λ x. (parts_of x.0, x.1.now)) result (body_at version bytes.now) }
{
    let (counts, rest) = counts_in(alloc, bytes)?;
    let (sources, rest) = sources_in(alloc, version, counts.len() as u8, rest)?;
    Ok((Parts { counts, sources }, rest))
}

/// The version and the message.
#[tactic(auto, unfolding(model_wire::specs::Message::message_at))]
fn message_in(alloc: Global, bytes: &[u8]) -> Result<(u8, Parts, &[u8]), ReadError>
    ensures { Gives (λ x. ((x.0, parts_of x.1), x.2.now)) result (message_at bytes.now) }
{
    let (version, rest) = version_in(bytes)?;
    let (parts, rest) = body_in(alloc, version, rest)?;
    Ok((version, parts, rest))
}

/// The message that all of the bytes are.
#[tactic(auto, unfolding(model_wire::specs::Message::read_message))]
pub fn all_in(alloc: Global, bytes: &[u8]) -> Result<Parts, ReadError>
    ensures { Gives parts_of result (read_message bytes.now) }
{
    let (_, parts, rest) = message_in(alloc, bytes)?;
    if rest.is_empty() {
        Ok(parts)
    } else {
        Err(ReadError::At(rest.len(), WireWhy::Rest))
    }
}
