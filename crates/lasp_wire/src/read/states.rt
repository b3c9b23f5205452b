//! What sources hold, by their kinds.

ghost use Rattle.std.specs.Prelude.{◌≡◌, ◌≤◌, ◌<◌, IfOk, length, map, if◌then◌else◌, ◌==◌};
ghost use Rattle.lasp_wire.specs.Prelude.{IsAscending, AreAscending, count_max, made, rows_at, elements_at, numbers_at, top_at, held_set, held_elements, held_counts, held_top, held_behind, held_at, AreAtMost, val_of, Gives, held_of};

use super::elements::elements_in;
use super::groups::grouped_rows_in;
use super::numbers::{i64_at, kind_in};
use super::rows::single_rows_in;
use super::sequence::numbers_in;
use crate::refused::ReadError;
use lasp_logset::{Entry, OrSet};
use lasp_state::{COUNT_MAX, GCount, GSet, MaxReg, State};
use std::alloc::{AllocError, Global};

/// The rows of a set, as the version has them.
fn rows_in(
    alloc: Global,
    version: u8,
    nodes: u8,
    bytes: &[u8],
) -> Result<(Vec<Entry>, &[u8]), ReadError>
    requires { 1 ≤ nodes }
    ensures { Gives (λ x. (x.0.items, x.1.now)) result (rows_at version nodes bytes.now) }
{
    if version == 1 {
        single_rows_in(alloc, nodes, bytes)
    } else {
        grouped_rows_in(alloc, nodes, bytes)
    }
}

fn set_in(alloc: Global, version: u8, nodes: u8, bytes: &[u8]) -> Result<(State, &[u8]), ReadError>
    requires some { 1 ≤ nodes }
    requires few { nodes ≤ 8 }
    ensures { Gives (λ x. (held_of x.0, x.1.now)) result (made held_set (rows_at version nodes) bytes.now) }
{
    let (rows, rest) = rows_in(alloc, version, nodes, bytes)?;
    let set = OrSet::of_ascending(rows)?;
    Ok((State::Set(set), rest))
}

fn grow_in(alloc: Global, bytes: &[u8]) -> Result<(State, &[u8]), ReadError>
    ensures { Gives (λ x. (held_of x.0, x.1.now)) result (made held_elements elements_at bytes.now) }
{
    let (values, rest) = elements_in(alloc, bytes)?;
    let set = GSet::from_ascending(alloc, values)?;
    Ok((State::Grow(set), rest))
}

/// The counter with these counts.
fn counter_of(alloc: Global, counts: &[u64]) -> Result<GCount, AllocError>
    requires few { length counts.now < 256 }
    requires small { AreAtMost count_max counts.now }
    ensures { IfOk result (λ c. c ≡ counts.now) }
{
    let nodes = counts.len() as u8;
    let mut counter = GCount::new(alloc, nodes)?;
    for i in 0..nodes {
        counter.set_count(i, counts[usize::from(i)]);
    }
    Ok(counter)
}

fn counter_in(alloc: Global, nodes: u8, bytes: &[u8]) -> Result<(State, &[u8]), ReadError>
    ensures { Gives (λ x. (held_of x.0, x.1.now)) result (made held_counts (numbers_at count_max nodes) bytes.now) }
{
    let (counts, rest) = numbers_in(alloc, COUNT_MAX, nodes, bytes)?;
    let counter = counter_of(alloc, &counts)?;
    Ok((State::Count(counter), rest))
}

#[tactic(auto, unfolding(model_wire::specs::Message::top_at))]
fn top_in(bytes: &[u8]) -> Result<(Option<i64>, &[u8]), ReadError>
    ensures { Gives (λ x. (x.0, x.1.now)) result (top_at bytes.now) }
{
    let (present, rest) = kind_in(bytes, 0, 1)?;
    if present == 1 {
        let (n, rest) = i64_at(rest)?;
        Ok((Some(n), rest))
    } else {
        Ok((None, rest))
    }
}

fn register_in(bytes: &[u8]) -> Result<(State, &[u8]), ReadError>
    ensures { Gives (λ x. (held_of x.0, x.1.now)) result (made held_top top_at bytes.now) }
{
    let (value, rest) = top_in(bytes)?;
    Ok((State::Max(MaxReg { value }), rest))
}

/// What a source of the kind with this number holds.
fn state_behind(
    alloc: Global,
    version: u8,
    nodes: u8,
    kind: u8,
    bytes: &[u8],
) -> Result<(State, &[u8]), ReadError>
    requires some { 1 ≤ nodes }
    requires few { nodes ≤ 8 }
    ensures { Gives (λ x. (held_of x.0, x.1.now)) result (held_behind version nodes kind bytes.now) }
{
    match kind {
        1 => set_in(alloc, version, nodes, bytes),
        2 => grow_in(alloc, bytes),
        3 => counter_in(alloc, nodes, bytes),
        _ => register_in(bytes),
    }
}

/// The kind of a source and what it holds.
#[tactic(auto, unfolding(model_wire::specs::Message::held_at))]
pub fn state_in(
    alloc: Global,
    version: u8,
    nodes: u8,
    bytes: &[u8],
) -> Result<(State, &[u8]), ReadError>
    requires some { 1 ≤ nodes }
    requires few { nodes ≤ 8 }
    ensures { Gives (λ x. (held_of x.0, x.1.now)) result (held_at version nodes bytes.now) }
{
    let (kind, rest) = kind_in(bytes, 1, 4)?;
    state_behind(alloc, version, nodes, kind, rest)
}
