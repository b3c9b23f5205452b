//! What a read waits for.

ghost use Rattle.std.specs.Prelude.{◌≡◌, ◌↔◌, ◌&&◌, false, not, IsTrue};
ghost use Rattle.std.specs.List.{list_all};
ghost use Rattle.model_states.specs.Content.{of_grow, is_content_at_most};
ghost use Rattle.model_states.specs.Threshold.{suits, meets, counted, is_shape, is_counted, has_values, has_rows};
ghost use Rattle.lasp_value.specs.Value.{val_of};
ghost use Rattle.lasp_state.specs.State.{content_of, shape_of};
ghost use Rattle.lasp_state.specs.Threshold.{threshold_of, is_in};

use super::state::State;
use crate::GSet;
use lasp_value::{Value, Values};
use std::sync::Arc;

/// How far a state has to have come. What is at a threshold stays there as it grows.
#[derive(Drop)]
pub enum Threshold {
    /// At least this state.
    AtLeast(Arc<State>),
    /// At least this state, and not equal to it.
    Above(Arc<State>),
    /// So many elements of a grow-only set, or so large a total of a counter.
    Count(u64),
    /// A row of each of the values, or each as an element. A fold is asked by the set that it covers.
    Added(Values),
    /// A dead row of each of the values. A fold is asked by the set that it covers.
    Removed(Values),
}

impl Threshold {
    /// Whether a state of this kind and shape may be asked. It takes no memory.
    pub fn suits(&self, s: &State) -> bool
        ensures { result ≡ suits (threshold_of self.now) (shape_of s.now) }
    {
        match self {
            Threshold::AtLeast(bound) => is_like(bound, s),
            Threshold::Above(bound) => is_like(bound, s),
            Threshold::Count(_) => is_counted(s),
            Threshold::Added(_) => has_values(s),
            Threshold::Removed(_) => has_rows(s),
        }
    }

    /// Whether a state that it suits is at the threshold. It costs the order, or for each value two look-ups, its rows, and a pass over the rows that came since `State::index_rows`. The order makes a table where the state that is looked up in has none, and does without where memory for that is refused.
    pub fn meets(&self, s: &State) -> bool
        requires { IsTrue (suits (threshold_of self.now) (shape_of s.now)) }
        ensures { result ≡ meets (threshold_of self.now) (content_of s.now) }
    {
        match self {
            Threshold::AtLeast(bound) => is_at_least(bound, s),
            Threshold::Above(bound) => is_above(bound, s),
            Threshold::Count(count) => *count <= counted(s),
            Threshold::Added(values) => has_all(s, values, false),
            Threshold::Removed(values) => has_all(s, values, true),
        }
    }

    /// From a place on the place of the first value that it asks for and a state lacks, for `lacks`. It costs as `meets` for the values up to there.
    pub fn seek(&self, s: &State, place: u64) -> u64 {
        match self {
            Threshold::Added(values) => first_lacking(s, values, false, place),
            Threshold::Removed(values) => first_lacking(s, values, true, place),
            _ => place,
        }
    }

    /// Whether it asks for a value at a place that a state lacks, so that the state isn't at the threshold. It costs as `meets` for one value.
    pub fn lacks(&self, s: &State, place: u64) -> bool
        ensures { IsTrue result → meets (threshold_of self.now) (content_of s.now) ≡ false }
    {
        match self {
            Threshold::Added(values) => is_lacking(s, values, false, place),
            Threshold::Removed(values) => is_lacking(s, values, true, place),
            _ => false,
        }
    }
}

/// Whether two states are of one kind, counters of equally many nodes.
fn is_like(s: &State, other: &State) -> bool
    ensures { result ≡ is_shape (shape_of s.now) (shape_of other.now) }
{
    match (s, other) {
        (State::Set(_), State::Set(_)) => true,
        (State::Grow(_), State::Grow(_)) => true,
        (State::Count(counts), State::Count(others)) => counts.nodes() == others.nodes(),
        (State::Max(_), State::Max(_)) => true,
        (State::Fold(_, _), State::Fold(_, _)) => true,
        (_, _) => false,
    }
}

fn is_counted(s: &State) -> bool
    ensures { result ≡ is_counted (shape_of s.now) }
{
    matches!(s, State::Grow(_) | State::Count(_))
}

fn has_values(s: &State) -> bool
    ensures { result ≡ has_values (shape_of s.now) }
{
    matches!(s, State::Set(_) | State::Grow(_) | State::Fold(_, _))
}

fn has_rows(s: &State) -> bool
    ensures { result ≡ has_rows (shape_of s.now) }
{
    matches!(s, State::Set(_) | State::Fold(_, _))
}

fn is_at_least(bound: &State, s: &State) -> bool
    requires { shape_of bound.now ≡ shape_of s.now }
    ensures { result ≡ is_content_at_most (content_of bound.now) (content_of s.now) }
{
    bound.le(s)
}

fn is_above(bound: &State, s: &State) -> bool
    requires { shape_of bound.now ≡ shape_of s.now }
    ensures { result ≡ (is_content_at_most (content_of bound.now) (content_of s.now) && not (is_content_at_most (content_of s.now) (content_of bound.now))) }
{
    is_at_least(bound, s) && !is_at_least(s, bound)
}

/// The number of elements, or the total.
fn counted(s: &State) -> u64
    ensures { result ≡ counted (content_of s.now) }
{
    match s {
        State::Set(_) => 0,
        State::Grow(values) => values.len(),
        State::Count(counts) => counts.total(),
        State::Max(_) => 0,
        State::Fold(_, _) => 0,
    }
}

/// Whether each value was added, or removed where `dead` is true.
fn has_all(s: &State, values: &Values, dead: bool) -> bool
    ensures { result ≡ list_all (is_in dead (content_of s.now)) values.now }
{
    for i in 0..values.len() {
        if !has(s, values.at(i), dead) {
            return false;
        }
    }
    true
}

/// From a place on the place of the first value that wasn't added, or removed where `dead` is true.
fn first_lacking(s: &State, values: &Values, dead: bool, place: u64) -> u64 {
    for i in place..values.len() {
        if !has(s, values.at(i), dead) {
            return i;
        }
    }
    values.len()
}

/// Whether there is a value at a place that wasn't added, or removed where `dead` is true.
fn is_lacking(s: &State, values: &Values, dead: bool, place: u64) -> bool
    ensures { IsTrue result → list_all (is_in dead (content_of s.now)) values.now ≡ false }
{
    place < values.len() && !has(s, values.at(place), dead)
}

fn has(s: &State, value: &Value, dead: bool) -> bool
    ensures { IsTrue result ↔ IsTrue (is_in dead (content_of s.now) (val_of value.now)) }
{
    match s {
        State::Set(set) => set.has_row(value, dead),
        State::Grow(values) => has_element(values, value, dead),
        State::Count(_) => false,
        State::Max(_) => false,
        State::Fold(set, _) => set.has_row(value, dead),
    }
}

fn has_element(values: &GSet, value: &Value, dead: bool) -> bool
    ensures { IsTrue result ↔ IsTrue (is_in dead (of_grow values.now) (val_of value.now)) }
{
    !dead && values.has(value)
}
