//! Tokens, each with whether it is dead.

ghost use Rattle.std.specs.Prelude.{◌≡◌, ◌≤◌, IfOk, length, map, None};
ghost use Rattle.lasp_wire.specs.Prelude.{list_at, token_at, is_above, mark_cmp, latest, token_after_at, tokens_at, Gives, mark_of, last_of};

use super::numbers::{kind_in, u8_in, u64_in};
use crate::refused::ReadError;
use model_wire::WireWhy;
use std::alloc::Global;
use std::cmp::Ordering;

/// The token of a source's row, and whether it is dead.
#[derive(Clone, Copy, Drop)]
pub struct Mark {
    pub replica: u8,
    pub k: u64,
    pub is_dead: bool,
}

/// A token and whether it is dead.
#[tactic(auto, unfolding(model_wire::specs::Value::token_at))]
pub fn mark_in(nodes: u8, bytes: &[u8]) -> Result<(Mark, &[u8]), ReadError>
    requires { 1 ≤ nodes }
    ensures { Gives (λ x. (mark_of x.0, x.1.now)) result (token_at nodes bytes.now) }
{
    let (replica, rest) = u8_in(bytes, 0, nodes - 1)?;
    let (k, rest) = u64_in(rest, 1, 100_000)?;
    let (dead, rest) = kind_in(rest, 0, 1)?;
    let mark = Mark {
        replica,
        k,
        is_dead: dead == 1,
    };
    Ok((mark, rest))
}

fn is_mark_above(before: &[Mark], mark: Mark) -> bool
    ensures { result ≡ is_above mark_cmp (last_of (map mark_of before.now)) (mark_of mark) }
{
    match before.last() {
        Some(last) => compare(*last, mark).is_lt(),
        None => true,
    }
}

fn compare(a: Mark, b: Mark) -> Ordering
    ensures { result ≡ mark_cmp (mark_of a) (mark_of b) }
{
    a.replica.cmp(&b.replica).then(a.k.cmp(&b.k))
}

/// A token above the last one before it.
fn mark_after<'a>(
    nodes: u8,
    before: &[Mark],
    bytes: &'a [u8],
) -> Result<(Mark, &'a [u8]), ReadError>
    requires { 1 ≤ nodes }
    ensures { Gives (λ x. (mark_of x.0, x.1.now)) result (token_after_at nodes (last_of (map mark_of before.now)) bytes.now) }
{
    let (mark, rest) = mark_in(nodes, bytes)?;
    if is_mark_above(before, mark) {
        Ok((mark, rest))
    } else {
        Err(ReadError::At(bytes.len(), WireWhy::Order))
    }
}

/// So many tokens, ascending.
#[tactic(auto, unfolding(model_wire::specs::Message::tokens_at))]
pub fn marks_in(
    alloc: Global,
    nodes: u8,
    count: u32,
    bytes: &[u8],
) -> Result<(Vec<Mark>, &[u8]), ReadError>
    requires { 1 ≤ nodes }
    ensures exact { Gives (λ x. (map mark_of x.0.items, x.1.now)) result (tokens_at nodes count bytes.now) }
    ensures long { IfOk result (λ x. length x.0.items ≡ count) }
{
    let mut marks: Vec<Mark> = Vec::new(alloc);
    let mut rest = bytes;
    for _ in 0..count {
        let (mark, after) = mark_after(nodes, &marks, rest)?;
        marks.push(mark)?;
        rest = after;
    }
    Ok((marks, rest))
}
