//! Sequences of numbers.

ghost use Rattle.std.specs.Prelude.{◌≡◌, ◌≤◌, IfOk, length};
ghost use Rattle.lasp_wire.specs.Prelude.{list_at, limited_at, nothing_more, numbers_at, counts_at, Gives};

use super::numbers::{u8_in, u64_in};
use crate::refused::ReadError;
use std::alloc::Global;

/// So many numbers of 64 bits, each at most a limit.
#[tactic(auto, unfolding(model_wire::specs::Message::numbers_at))]
pub fn numbers_in(
    alloc: Global,
    most: u64,
    count: u8,
    bytes: &[u8],
) -> Result<(Vec<u64>, &[u8]), ReadError>
    ensures exact { Gives (λ x. (x.0.items, x.1.now)) result (numbers_at most count bytes.now) }
    ensures long { IfOk result (λ x. length x.0.items ≡ count) }
{
    let mut numbers: Vec<u64> = Vec::new(alloc);
    let mut rest = bytes;
    for _ in 0..count {
        let (number, after) = u64_in(rest, 0, most)?;
        numbers.push(number)?;
        rest = after;
    }
    Ok((numbers, rest))
}

/// The counts of a message, with their number before them.
#[tactic(auto, unfolding(model_wire::specs::Message::counts_at))]
pub fn counts_in(alloc: Global, bytes: &[u8]) -> Result<(Vec<u64>, &[u8]), ReadError>
    ensures exact { Gives (λ x. (x.0.items, x.1.now)) result (counts_at bytes.now) }
    ensures some { IfOk result (λ x. 1 ≤ length x.0.items) }
    ensures few { IfOk result (λ x. length x.0.items ≤ 8) }
{
    let (nodes, rest) = u8_in(bytes, 1, 8)?;
    numbers_in(alloc, 100_000, nodes, rest)
}
