//! The state of a variable.

ghost use Rattle.std.specs.Prelude.{◌≡◌, ◌≢◌, pos, ◌↔◌, ◌<◌, ◌++◌, IfOk, OnOk, OnErr, IsTrue, string_bytes};
ghost use Rattle.model_states.specs.Counts.{zeros};
ghost use Rattle.model_states.specs.Content.{join_contents, least, of_counts, size_of, IsContentAtMost, IsOrdered};
ghost use Rattle.model_states.specs.Threshold.{set, grow, counter, register, fold};
ghost use Rattle.model_states.specs.Shape.{HasShape};
ghost use Rattle.model_states.specs.Update.{delta};
ghost use Rattle.lasp_state.specs.State.{content_of, shape_of, number_of, joined_number, AreJoinable, shown_state, op_of, IsOpOf};

use super::fold::take_greater;
use super::op::Op;
use super::print::{print_fold, print_number, print_total};
use crate::{GCount, GSet, MaxReg};
use lasp_logset::{OrSet, add_delta};
use std::alloc::{AllocError, Global};

/// What a variable holds. It only grows, by joins.
#[derive(Drop)]
pub enum State {
    /// The rows of an observed-remove set, or of a process over sets.
    Set(OrSet),
    /// The elements of a grow-only set.
    Grow(GSet),
    /// What each node counted of a counter.
    Count(GCount),
    /// The greatest number of a register.
    Max(MaxReg),
    /// The rows of the set that a fold covers, and the fold's number.
    Fold(OrSet, i128),
}

impl State {
    /// The state of a set with no rows. It takes no memory.
    pub fn empty_set(alloc: Global) -> State
        ensures content { content_of result ≡ least }
        ensures shape { shape_of result ≡ set }
        ensures number { number_of result ≡ pos 0 }
    {
        State::Set(OrSet::new(alloc))
    }

    /// The state of a grow-only set with no elements. It takes no memory.
    pub fn no_elements(alloc: Global) -> State
        ensures content { content_of result ≡ least }
        ensures shape { shape_of result ≡ grow }
        ensures number { number_of result ≡ pos 0 }
    {
        State::Grow(GSet::new(alloc))
    }

    /// The state of a counter of so many nodes, of which none counted yet.
    pub fn zero_count(alloc: Global, nodes: u8) -> Result<State, AllocError>
        ensures content { IfOk result (λ s. content_of s ≡ of_counts (zeros nodes)) }
        ensures shape { IfOk result (λ s. shape_of s ≡ counter nodes) }
        ensures number { IfOk result (λ s. number_of s ≡ pos 0) }
    {
        Ok(State::Count(GCount::new(alloc, nodes)?))
    }

    /// The state of a register without a number. It takes no memory.
    pub fn no_number() -> State
        ensures content { content_of result ≡ least }
        ensures shape { shape_of result ≡ register }
        ensures number { number_of result ≡ pos 0 }
    {
        State::Max(MaxReg { value: None })
    }

    /// The state of a fold that covers no rows, with the number 0. It takes no memory.
    pub fn empty_fold(alloc: Global) -> State
        ensures content { content_of result ≡ least }
        ensures shape { shape_of result ≡ fold }
        ensures number { number_of result ≡ pos 0 }
    {
        State::Fold(OrSet::new(alloc), 0)
    }

    /// Recalls, at no cost, that the content has the part of its shape alone, its rows and elements in ascending order, and that only a fold has a number.
    pub fn recall(&self)
        ensures ordered { IsOrdered (content_of self.now) }
        ensures shape { HasShape (shape_of self.now) (content_of self.now) }
        ensures number { number_of self.now ≢ pos 0 → shape_of self.now ≡ fold }
    {
        match self {
            State::Set(set) => set.ascends(),
            State::Grow(values) => values.ascends(),
            State::Count(_) => {}
            State::Max(_) => {}
            State::Fold(set, _) => set.ascends(),
        }
    }

    /// An equal state. Of a set or a fold it shares all rows or elements with this one.
    pub fn try_clone(&self) -> Result<State, AllocError>
        ensures { IfOk result (λ s. s ≡ self.now) }
    {
        match self {
            State::Set(set) => Ok(State::Set(set.try_clone()?)),
            State::Grow(values) => Ok(State::Grow(values.try_clone()?)),
            State::Count(counts) => Ok(State::Count(counts.try_clone()?)),
            State::Max(register) => Ok(State::Max(*register)),
            State::Fold(set, number) => Ok(State::Fold(set.try_clone()?, *number)),
        }
    }

    /// An equal state without tables, for what is kept while this one goes on growing. Reads that need a table make one each time.
    pub fn past(&self) -> Result<State, AllocError>
        ensures { IfOk result (λ s. s ≡ self.now) }
    {
        match self {
            State::Set(set) => Ok(State::Set(set.past()?)),
            State::Grow(values) => Ok(State::Grow(values.past()?)),
            State::Count(counts) => Ok(State::Count(counts.try_clone()?)),
            State::Max(register) => Ok(State::Max(*register)),
            State::Fold(set, number) => Ok(State::Fold(set.past()?, *number)),
        }
    }

    /// The order: whether the other state knows all that this one knows. Folds are ordered by the sets that they cover.
    pub fn le(&self, other: &State) -> bool
        requires { shape_of self.now ≡ shape_of other.now }
        ensures { IsTrue result ↔ IsContentAtMost (content_of self.now) (content_of other.now) }
    {
        match (self, other) {
            (State::Set(set), State::Set(bound)) => set.le(bound),
            (State::Grow(values), State::Grow(bound)) => values.is_within(bound),
            (State::Count(counts), State::Count(bound)) => counts.is_at_most(bound),
            (State::Max(register), State::Max(bound)) => register.is_not_later(bound),
            (State::Fold(set, _), State::Fold(bound, _)) => set.le(bound),
            (_, _) => unreachable!(),
        }
    }

    /// The other state is joined in; true exactly where this one grew. Of two folds one covers the other, and the greater is taken with its number. After a refusal it is as before.
    pub fn join_in(&mut self, other: &State) -> Result<bool, AllocError>
        requires { AreJoinable self.old other.now }
        ensures shape { shape_of self.new ≡ shape_of self.old }
        ensures ok { OnOk result (content_of self.new ≡ join_contents (content_of self.old) (content_of other.now)) }
        ensures number { OnOk result (number_of self.new ≡ joined_number self.old other.now) }
        ensures grew { IfOk result (λ grew. IsTrue grew ↔ (content_of self.new ≢ content_of self.old)) }
        ensures err { OnErr result (self.new ≡ self.old) }
    {
        if self.is_fold() {
            return take_greater(self, other);
        }
        self.join_part(other)
    }

    /// The join of states that are no folds.
    fn join_part(&mut self, other: &State) -> Result<bool, AllocError>
        requires shape { shape_of self.old ≡ shape_of other.now }
        requires part { shape_of self.old ≢ fold }
        ensures shape { shape_of self.new ≡ shape_of self.old }
        ensures ok { OnOk result (content_of self.new ≡ join_contents (content_of self.old) (content_of other.now)) }
        ensures number { OnOk result (number_of self.new ≡ joined_number self.old other.now) }
        ensures grew { IfOk result (λ grew. IsTrue grew ↔ (content_of self.new ≢ content_of self.old)) }
        ensures err { OnErr result (self.new ≡ self.old) }
    {
        match (self, other) {
            (State::Set(set), State::Set(rows)) => set.join_in(rows),
            (State::Grow(values), State::Grow(others)) => values.unite(others),
            (State::Count(counts), State::Count(others)) => Ok(counts.raise(others)),
            (State::Max(register), State::Max(number)) => Ok(register.raise(number)),
            (_, _) => unreachable!(),
        }
    }

    /// Whether it is the state of a fold.
    fn is_fold(&self) -> bool
        ensures { IsTrue result ↔ (shape_of self.now ≡ fold) }
    {
        matches!(self, State::Fold(_, _))
    }

    /// What the update with number k of a replica joins into this state. A removal costs a pass over the rows.
    pub fn delta(&self, alloc: Global, op: &Op, replica: u8, k: u64) -> Result<State, AllocError>
        requires { IsOpOf op.now replica (shape_of self.now) }
        ensures content { IfOk result (λ s. content_of s ≡ delta (op_of op.now) (content_of self.now) replica k) }
        ensures shape { IfOk result (λ s. shape_of s ≡ shape_of self.now) }
    {
        match (self, op) {
            (State::Set(_), Op::Add(value)) => Ok(State::Set(add_delta(alloc, value, replica, k)?)),
            (State::Set(set), Op::Remove(value)) => Ok(State::Set(set.remove_delta(value)?)),
            (State::Grow(_), Op::Insert(value)) => Ok(State::Grow(GSet::insert_delta(
                alloc, value,
            )?)),
            (State::Count(counts), Op::Inc(by)) => Ok(State::Count(counts.inc_delta(
                replica, *by,
            )?)),
            (State::Max(_), Op::Max(number)) => Ok(State::Max(MaxReg {
                value: Some(*number),
            })),
            (_, Op::Join(state)) => state.past(),
            (_, _) => unreachable!(),
        }
    }

    /// What the update with number k of a replica brings to this state: joined in here it does what `delta` does, but of a removal it has the value's live rows alone, so that it costs these where the values are indexed.
    pub fn change(&self, alloc: Global, op: &Op, replica: u8, k: u64) -> Result<State, AllocError>
        requires { IsOpOf op.now replica (shape_of self.now) }
        ensures content { IfOk result (λ s. join_contents (content_of self.now) (content_of s) ≡ join_contents (content_of self.now) (delta (op_of op.now) (content_of self.now) replica k)) }
        ensures shape { IfOk result (λ s. shape_of s ≡ shape_of self.now) }
    {
        match (self, op) {
            (State::Set(set), Op::Remove(value)) => Ok(State::Set(set.bury_delta(value)?)),
            (_, _) => self.delta(alloc, op, replica, k),
        }
    }

    /// The number of rows or elements, dead rows counted; of a fold that of the rows that it covers.
    pub fn size(&self) -> u64
        ensures { result ≡ size_of (content_of self.now) }
    {
        match self {
            State::Set(set) => set.rows(),
            State::Grow(values) => values.len(),
            State::Count(_) => 0,
            State::Max(_) => 0,
            State::Fold(set, _) => set.rows(),
        }
    }

    /// Appends the printed form: of a set the array of its visible values in ascending order, of a grow-only set that of its elements, of a counter its total, of a register its number or `null`, of a fold its number.
    pub fn print_into(&self, out: &mut String) -> Result<(), AllocError>
        ensures { OnOk result (string_bytes out.new ≡ string_bytes out.old ++ shown_state self.now) }
    {
        match self {
            State::Set(set) => set.print_into(out),
            State::Grow(values) => values.print_into(out),
            State::Count(counts) => print_total(counts.total(), out),
            State::Max(register) => print_number(register.value, out),
            State::Fold(_, number) => print_fold(*number, out),
        }
    }
}
