//! How large a join would be, and what it would change, before it is made.

ghost use Rattle.std.specs.Prelude.{◌≡◌, ◌+◌, ◌↔◌, IfOk, IsTrue, IsFalse, length, nat_le};
ghost use Rattle.lasp_replica.specs.Prelude.{changed, join_contents, of_set, size_of, row_limit, IsContentAtMost, content_of, news_of, set};
ghost use Rattle.lasp_state.specs.State.{shape_of};

use super::MOST_ROWS;
use lasp_logset::{OrSet, changed};
use lasp_state::{Op, State};
use std::alloc::{AllocError, Global};

/// Whether the state is that of a set.
pub(super) fn is_set(state: &State) -> bool
    ensures { IsTrue result ↔ (shape_of state.now ≡ set) }
{
    matches!(state, State::Set(_))
}

/// Whether two sets have no more rows together than a variable may have.
fn are_few(set: &OrSet, more: &OrSet) -> bool
    ensures { result ≡ nat_le (length set.now + length more.now) row_limit }
{
    set.rows() + more.rows() <= MOST_ROWS
}

/// Whether the join of two sets has no more rows than a variable may have. It costs nothing where they have no more together, else what `OrSet::joined_rows` does.
pub(super) fn rows_fit(set: &OrSet, more: &OrSet) -> bool
    ensures { result ≡ nat_le (size_of (join_contents (of_set set.now) (of_set more.now))) row_limit }
{
    if are_few(set, more) {
        return true;
    }
    set.joined_rows(more) <= MOST_ROWS
}

/// How many rows or elements the join of two states of one shape has. It costs a look-up for each row of one of them, of the smaller one where both have tables, and takes no memory where the other one has a table.
fn joined_size(s: &State, t: &State) -> u64
    requires { shape_of s.now ≡ shape_of t.now }
    ensures { result ≡ size_of (join_contents (content_of s.now) (content_of t.now)) }
{
    match (s, t) {
        (State::Set(set), State::Set(rows)) => set.joined_rows(rows),
        (State::Grow(values), State::Grow(others)) => values.joined_len(others),
        (State::Count(_), State::Count(_)) => 0,
        (State::Max(_), State::Max(_)) => 0,
        (State::Fold(set, _), State::Fold(rows, _)) => set.joined_rows(rows),
        (_, _) => unreachable!(),
    }
}

/// Whether the join of two states of one shape has no more rows or elements than a variable may have. Of two sets it costs what `rows_fit` does, of others what `joined_size` does.
pub(super) fn fits(s: &State, t: &State) -> bool
    requires { shape_of s.now ≡ shape_of t.now }
    ensures { result ≡ nat_le (size_of (join_contents (content_of s.now) (content_of t.now))) row_limit }
{
    match (s, t) {
        (State::Set(set), State::Set(more)) => rows_fit(set, more),
        (_, _) => joined_size(s, t) <= MOST_ROWS,
    }
}

/// The rows of the second set that the first one lacks, or that are dead in the second alone. Where the first one is empty it shares the second one's log, else it costs what `changed` does.
pub(super) fn new_rows(alloc: Global, before: &OrSet, after: &OrSet) -> Result<OrSet, AllocError>
    ensures { IfOk result (λ rows. rows ≡ changed before.now after.now) }
{
    if before.rows() == 0 {
        return after.past();
    }
    changed(alloc, before, after)
}

/// The rows of a set that another one lacks or has live alone; of other states none.
pub(super) fn news(alloc: Global, s: &State, t: &State) -> Result<OrSet, AllocError>
    requires { shape_of s.now ≡ shape_of t.now }
    ensures { IfOk result (λ rows. rows ≡ news_of (shape_of s.now) (content_of s.now) (content_of t.now)) }
{
    match (s, t) {
        (State::Set(set), State::Set(rows)) => new_rows(alloc, set, rows),
        (_, _) => Ok(OrSet::new(alloc)),
    }
}

/// What an operation brings to a state by a change: of a set that it joins in the new rows alone, at a look-up for each row, so that what follows costs these.
pub(super) fn brought(alloc: Global, s: &State, op: &Op, change: State) -> Result<State, AllocError>
    requires { shape_of s.now ≡ shape_of change }
    ensures joined { IfOk result (λ d. join_contents (content_of s.now) (content_of d) ≡ join_contents (content_of s.now) (content_of change)) }
    ensures shape { IfOk result (λ d. shape_of d ≡ shape_of change) }
{
    match op {
        Op::Join(_) => new_part(alloc, s, change),
        _ => Ok(change),
    }
}

/// The part of a change that is new in a state: of a set the new rows, else all of it.
fn new_part(alloc: Global, s: &State, change: State) -> Result<State, AllocError>
    requires { shape_of s.now ≡ shape_of change }
    ensures joined { IfOk result (λ d. join_contents (content_of s.now) (content_of d) ≡ join_contents (content_of s.now) (content_of change)) }
    ensures shape { IfOk result (λ d. shape_of d ≡ shape_of change) }
{
    if !is_set(s) {
        return Ok(change);
    }
    let rows = news(alloc, s, &change)?;
    Ok(State::Set(rows))
}

/// Whether a state grows by another one, of which these rows are the news. Of a set it costs nothing, of others what `State::le` does.
pub(super) fn grows_by(s: &State, t: &State, rows: &OrSet) -> bool
    requires shape { shape_of s.now ≡ shape_of t.now }
    requires rows { rows.now ≡ news_of (shape_of s.now) (content_of s.now) (content_of t.now) }
    ensures { IsFalse result ↔ IsContentAtMost (content_of t.now) (content_of s.now) }
{
    let is_new = rows.rows() > 0;
    if is_set(t) {
        return is_new;
    }
    !t.le(s)
}
