//! The message that bytes are.

ghost use Rattle.std.specs.Prelude.{◌≡◌, ℕ, IfOk, IfErr, Result, Ok, Err};
ghost use Rattle.lasp_wire.specs.Prelude.{decoded, decoded_from, WireWhy, IsMessage, IsSpelledSo, IsStuck, Fails, Refuses, Tells, IsStuckAs, parts_of};
ghost use Rattle.model_graph.specs.Message as plain;

use super::counts::Counts;
use super::message::Message;
use super::read::{Parts, all_in};
use super::refused::{ReadError, WireRefused};
use std::alloc::Global;

/// The message whose spelling the bytes are, in either version, or the first field that can't be read. It costs one pass, and no more memory than the message.
pub fn decode(alloc: Global, bytes: &[u8]) -> Result<Message, WireRefused>
    // The message, or the place and the cause of the refusal.
    ensures exact { Tells (λ m. m) result (decoded bytes.now) }
    // What is read is in the ranges of the format, and is spelled so in one of the versions.
    ensures read { IfOk result (λ m. IsMessage m × IsSpelledSo m bytes.now) }
    // What is spelled so is read.
    ensures only { (m : plain.Message) → IsMessage m → IsSpelledSo m bytes.now → Tells (λ n. n) result (Ok m) }
    // A refusal tells where whole lawful fields, in order, end, and what stands there fails.
    ensures stuck { IfErr result (λ e. IsStuckAs e bytes.now) }
    // Where they end so, that is told.
    ensures refused { (place : ℕ) (why : WireWhy) → IsStuck bytes.now place why → Tells (λ n. n) result (Err (place, why)) }
{
    let parts = parts_in(alloc, bytes)?;
    let counts = Counts::of(parts.counts);
    Ok(Message::of(counts, parts.sources))
}

#[tactic(auto, unfolding(model_wire::specs::Message::decoded))]
fn parts_in(alloc: Global, bytes: &[u8]) -> Result<Parts, WireRefused>
    ensures { Tells parts_of result (decoded bytes.now) }
{
    match all_in(alloc, bytes) {
        Ok(parts) => Ok(parts),
        Err(e) => Err(placed(bytes, e)),
    }
}

/// The refusal with the place of its field, counted from the first byte.
fn placed(bytes: &[u8], e: ReadError) -> WireRefused
    ensures { (read : Result plain.Message (ℕ × WireWhy)) → Fails e read → Refuses result (decoded_from bytes.now read) }
{
    match e {
        ReadError::At(left, why) => WireRefused::At {
            place: bytes.len().saturating_sub(left) as u64,
            why,
        },
        ReadError::Memory => WireRefused::Memory,
    }
}
