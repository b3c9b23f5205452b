//! What sources hold, with their kinds.

ghost use Rattle.std.specs.Prelude.{◌≡◌, ◌≤◌, ◌^◌, IfOk, length};
ghost use Rattle.lasp_wire.specs.Prelude.{spelled_values, spelled_counts, spelled_top, spelled_content, content_of, kind_of};

use super::rows::set_len;
use super::values::value_len;
use lasp_state::{GCount, GSet, State};
use std::alloc::AllocError;

fn elements_len(set: &GSet) -> Result<u64, AllocError>
    requires { length (spelled_values set.now) ≤ 2 ^ 32 }
    ensures { IfOk result (λ n. n ≡ length (spelled_values set.now)) }
{
    let mut len = 4;
    let mut values = set.sorted()?;
    while let Some(value) = values.next() {
        len += value_len(value);
    }
    Ok(len)
}

pub fn counter_len(counter: &GCount) -> u64
    ensures { result ≡ length (spelled_counts counter.now) }
{
    8 * u64::from(counter.nodes())
}

pub fn top_len(top: Option<i64>) -> u64
    ensures { result ≡ length (spelled_top top) }
{
    match top {
        None => 1,
        Some(_) => 9,
    }
}

/// The kind of a source with this state, and what it holds. A fold is no source, and has no spelling.
pub fn state_len(state: &State) -> Result<u64, AllocError>
    requires { length (spelled_content (kind_of state.now) (content_of state.now)) ≤ 2 ^ 32 }
    ensures { IfOk result (λ n. n ≡ length (spelled_content (kind_of state.now) (content_of state.now))) }
{
    match state {
        State::Set(set) => Ok(1 + set_len(set)?),
        State::Grow(values) => Ok(1 + elements_len(values)?),
        State::Count(counter) => Ok(1 + counter_len(counter)),
        State::Max(register) => Ok(1 + top_len(register.value)),
        State::Fold(_, _) => Ok(0),
    }
}
