//! The rows of a set in version 1, each with its value.

ghost use Rattle.std.specs.Prelude.{◌≡◌, ◌≤◌, None};
ghost use Rattle.lasp_wire.specs.Prelude.{row_cmp, list_at, row_at, is_above, latest, row_after_at, single_rows_at, Gives, last_of};

use super::numbers::u32_in;
use super::tokens::mark_in;
use super::values::value_in;
use crate::refused::ReadError;
use lasp_logset::Entry;
use lasp_value::Token;
use model_wire::WireWhy;
use std::alloc::Global;
use std::cmp::Ordering;

/// A row: its value and its token.
#[tactic(auto, unfolding(model_wire::specs::Value::row_at))]
fn row_in(alloc: Global, nodes: u8, bytes: &[u8]) -> Result<(Entry, &[u8]), ReadError>
    requires { 1 ≤ nodes }
    ensures { Gives (λ x. (x.0, x.1.now)) result (row_at nodes bytes.now) }
{
    let (value, rest) = value_in(alloc, bytes)?;
    let (mark, rest) = mark_in(nodes, rest)?;
    let token = Token::Base(mark.replica, mark.k);
    let row = Entry::new(alloc, value, token, mark.is_dead)?;
    Ok((row, rest))
}

fn compare(a: &Entry, b: &Entry) -> Ordering
    ensures { result ≡ row_cmp a.now b.now }
{
    match a.value().cmp(b.value()) {
        Ordering::Equal => a.token().cmp(b.token()),
        unequal => unequal,
    }
}

fn is_row_above(before: &[Entry], row: &Entry) -> bool
    ensures { result ≡ is_above row_cmp (last_of before.now) row.now }
{
    match before.last() {
        Some(last) => compare(last, row).is_lt(),
        None => true,
    }
}

/// A row above the last one before it.
fn row_after<'a>(
    alloc: Global,
    nodes: u8,
    before: &[Entry],
    bytes: &'a [u8],
) -> Result<(Entry, &'a [u8]), ReadError>
    requires { 1 ≤ nodes }
    ensures { Gives (λ x. (x.0, x.1.now)) result (row_after_at nodes (last_of before.now) bytes.now) }
{
    let (row, rest) = row_in(alloc, nodes, bytes)?;
    if is_row_above(before, &row) {
        Ok((row, rest))
    } else {
        Err(ReadError::At(bytes.len(), WireWhy::Order))
    }
}

/// So many rows, ascending.
fn rows_of(
    alloc: Global,
    nodes: u8,
    count: u32,
    bytes: &[u8],
) -> Result<(Vec<Entry>, &[u8]), ReadError>
    requires { 1 ≤ nodes }
    ensures { Gives (λ x. (x.0.items, x.1.now)) result (list_at (row_after_at nodes) latest count None bytes.now) }
{
    let mut rows: Vec<Entry> = Vec::new(alloc);
    let mut rest = bytes;
    for _ in 0..count {
        let (row, after) = row_after(alloc, nodes, &rows, rest)?;
        rows.push(row)?;
        rest = after;
    }
    Ok((rows, rest))
}

/// The rows of a set, with their number before them.
#[tactic(auto, unfolding(model_wire::specs::Message::single_rows_at))]
pub fn single_rows_in(
    alloc: Global,
    nodes: u8,
    bytes: &[u8],
) -> Result<(Vec<Entry>, &[u8]), ReadError>
    requires { 1 ≤ nodes }
    ensures { Gives (λ x. (x.0.items, x.1.now)) result (single_rows_at nodes bytes.now) }
{
    let (count, rest) = u32_in(bytes, 0, 65_536)?;
    rows_of(alloc, nodes, count, rest)
}
