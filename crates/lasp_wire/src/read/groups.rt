//! The rows of a set in version 2, where each value stands once before its tokens.

ghost use Rattle.std.specs.Prelude.{◌≡◌, ◌≤◌, ◌<◌, ◌+◌, ◌++◌, IfOk, OnOk, length, None};
ghost use Rattle.lasp_wire.specs.Prelude.{option_map, list_at, made, row_of, rows_of_group, rows_of, after_group, group_at, groups_at, grouped_rows_at, val_of, Gives, mark_of, last_value_of, before_of, group_of};

use super::elements::value_after;
use super::numbers::u32_in;
use super::tokens::{Mark, marks_in};
use crate::refused::ReadError;
use lasp_logset::Entry;
use lasp_value::{Token, Value};
use std::alloc::{AllocError, Global};

/// The most rows of a set.
const ROW_LIMIT: u32 = 65_536;

/// A value with its tokens.
#[derive(Drop)]
pub struct Group {
    pub value: Value,
    pub marks: Vec<Mark>,
}

fn last_value(rows: &[Entry]) -> Option<&Value>
    ensures { option_map (λ v. val_of v.now) result ≡ last_value_of rows.now }
{
    match rows.last() {
        Some(last) => Some(last.value()),
        None => None,
    }
}

/// A value above the last one before it, and its tokens, as far as the set has no more rows than it may.
#[tactic(auto, unfolding(model_wire::specs::Message::group_at))]
fn group_after<'a>(
    alloc: Global,
    nodes: u8,
    before: &[Entry],
    bytes: &'a [u8],
) -> Result<(Group, &'a [u8]), ReadError>
    requires nodes { 1 ≤ nodes }
    requires room { length before.now ≤ 65536 }
    ensures exact { Gives (λ x. (group_of x.0, x.1.now)) result (group_at nodes (before_of before.now) bytes.now) }
    ensures some { IfOk result (λ x. 0 < length x.0.marks.items) }
    ensures few { IfOk result (λ x. length before.now + length x.0.marks.items ≤ 65536) }
{
    let (value, rest) = value_after(alloc, last_value(before), bytes)?;
    let (count, rest) = u32_in(rest, 1, ROW_LIMIT - before.len() as u32)?;
    let (marks, rest) = marks_in(alloc, nodes, count, rest)?;
    Ok((Group { value, marks }, rest))
}

fn row_of(alloc: Global, value: &Value, mark: Mark) -> Result<Entry, AllocError>
    ensures { IfOk result (λ r. r ≡ row_of (val_of value.now) (mark_of mark)) }
{
    let token = Token::Base(mark.replica, mark.k);
    Entry::new(alloc, value.try_clone(alloc)?, token, mark.is_dead)
}

/// Appends the rows of a value.
fn push_group(alloc: Global, rows: &mut Vec<Entry>, group: &Group) -> Result<(), AllocError>
    ensures { OnOk result (rows.new.items ≡ rows.old.items ++ rows_of_group (group_of group.now)) }
{
    for mark in &group.marks {
        rows.push(row_of(alloc, &group.value, *mark)?)?;
    }
    Ok(())
}

/// So many values with their tokens, as rows.
fn groups_of(
    alloc: Global,
    nodes: u8,
    count: u32,
    bytes: &[u8],
) -> Result<(Vec<Entry>, &[u8]), ReadError>
    requires { 1 ≤ nodes }
    ensures { Gives (λ x. (x.0.items, x.1.now)) result (made rows_of (list_at (group_at nodes) after_group count (None, 0)) bytes.now) }
{
    let mut rows: Vec<Entry> = Vec::new(alloc);
    let mut rest = bytes;
    for _ in 0..count {
        let (group, after) = group_after(alloc, nodes, &rows, rest)?;
        push_group(alloc, &mut rows, &group)?;
        rest = after;
    }
    Ok((rows, rest))
}

/// The rows of a set, by their values, with the number of values before them.
#[tactic(auto, unfolding(model_wire::specs::Message::grouped_rows_at, model_wire::specs::Message::groups_at))]
pub fn grouped_rows_in(
    alloc: Global,
    nodes: u8,
    bytes: &[u8],
) -> Result<(Vec<Entry>, &[u8]), ReadError>
    requires { 1 ≤ nodes }
    ensures { Gives (λ x. (x.0.items, x.1.now)) result (grouped_rows_at nodes bytes.now) }
{
    let (count, rest) = u32_in(bytes, 0, ROW_LIMIT)?;
    groups_of(alloc, nodes, count, rest)
}
