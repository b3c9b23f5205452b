//! What changed in one source.

ghost use Rattle.std.specs.Prelude.{◌≡◌, ◌≢◌, IfOk, length};
ghost use Rattle.model_states.specs.Threshold.{fold};
ghost use Rattle.model_deltas.specs.Delta.{new_values, changed_counts, changed_top, changed_content};
ghost use Rattle.lasp_state.specs.State.{content_of, shape_of};

use lasp_logset::changed;
use lasp_state::{GCount, GSet, MaxReg, State};
use std::alloc::{AllocError, Global};

/// The elements of the second set that the first one lacks. It makes a table of the first, and costs a look-up for each element of the second and a copy of each that is new.
fn new_elements(alloc: Global, before: &GSet, after: &GSet) -> Result<GSet, AllocError>
    ensures { IfOk result (λ s. s ≡ new_values before.now after.now) }
{
    after.ascends();
    let known = before.indexed()?;
    let mut values = Vec::new(alloc);
    let mut all = after.sorted()?;
    while let Some(value) = all.next() {
        if !known.has(value) {
            values.push(value.try_clone(alloc)?)?;
        }
    }
    GSet::from_ascending(alloc, values)
}

/// Each count that is another than before; zero for the others.
fn other_counts(before: &GCount, after: &GCount) -> Result<GCount, AllocError>
    requires { length before.now ≡ length after.now }
    ensures { IfOk result (λ counts. counts ≡ changed_counts before.now after.now) }
{
    let mut counts = after.try_clone()?;
    for node in 0..after.nodes() {
        if before.count_of(node) == after.count_of(node) {
            counts.set_count(node, 0);
        }
    }
    Ok(counts)
}

/// The number, where it is another than before.
fn other_number(before: Option<i64>, after: Option<i64>) -> Option<i64>
    ensures { result ≡ changed_top before after }
{
    match (before, after) {
        (None, number) => number,
        (Some(_), None) => None,
        (Some(old), Some(new)) => { if old == new { None } else { Some(new) } }
    }
}

/// What a source has that it had not before. Of an observed-remove set that only grew each earlier row costs a comparison; of another one each row costs a look-up in a table, which is made of the earlier set where it has none. What is new shares its values with the later set.
pub fn changed_state(alloc: Global, before: &State, after: &State) -> Result<State, AllocError>
    requires shape { shape_of before.now ≡ shape_of after.now }
    requires source { shape_of after.now ≢ fold }
    ensures content { IfOk result (λ s. content_of s ≡ changed_content (content_of before.now) (content_of after.now)) }
    ensures shape { IfOk result (λ s. shape_of s ≡ shape_of after.now) }
{
    match (before, after) {
        (State::Set(old), State::Set(new)) => Ok(State::Set(changed(alloc, old, new)?)),
        (State::Grow(old), State::Grow(new)) => Ok(State::Grow(new_elements(alloc, old, new)?)),
        (State::Count(old), State::Count(new)) => Ok(State::Count(other_counts(old, new)?)),
        (State::Max(old), State::Max(new)) => Ok(State::Max(MaxReg {
            value: other_number(old.value, new.value),
        })),
        (_, _) => unreachable!(),
    }
}
