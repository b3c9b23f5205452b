//! What sources hold, with their kinds.

ghost use Rattle.std.specs.Prelude.{◌≡◌, ◌++◌, OnOk, flat_map};
ghost use Rattle.lasp_wire.specs.Prelude.{number, spelled_values, spelled_counts, spelled_top, spelled_content, content_of, kind_of, AreShortValues, IsShortState};

use super::numbers::{put_bool, put_i64, put_u32, put_u64};
use super::rows::put_set;
use super::values::put_value;
use lasp_state::{GCount, GSet, State};
use std::alloc::AllocError;

fn put_elements(out: &mut Vec<u8>, set: &GSet) -> Result<(), AllocError>
    requires { AreShortValues set.now }
    ensures { OnOk result (out.new.items ≡ out.old.items ++ spelled_values set.now) }
{
    put_u32(out, set.len() as u32)?;
    let mut values = set.sorted()?;
    while let Some(value) = values.next() {
        put_value(out, value)?;
    }
    Ok(())
}

fn put_counter(out: &mut Vec<u8>, counter: &GCount) -> Result<(), AllocError>
    ensures { OnOk result (out.new.items ≡ out.old.items ++ spelled_counts counter.now) }
{
    for i in 0..counter.nodes() {
        put_u64(out, counter.count_of(i))?;
    }
    Ok(())
}

fn put_top(out: &mut Vec<u8>, top: Option<i64>) -> Result<(), AllocError>
    ensures { OnOk result (out.new.items ≡ out.old.items ++ spelled_top top) }
{
    match top {
        None => put_bool(out, false),
        Some(n) => {
            put_bool(out, true)?;
            put_i64(out, n)
        }
    }
}

/// The kind of a source with this state, and what it holds.
pub fn put_state(out: &mut Vec<u8>, state: &State) -> Result<(), AllocError>
    requires { IsShortState state.now }
    ensures { OnOk result (out.new.items ≡ out.old.items ++ spelled_content (kind_of state.now) (content_of state.now)) }
{
    match state {
        State::Set(set) => {
            out.push(1)?;
            put_set(out, set)
        }
        State::Grow(values) => {
            out.push(2)?;
            put_elements(out, values)
        }
        State::Count(counter) => {
            out.push(3)?;
            put_counter(out, counter)
        }
        State::Max(register) => {
            out.push(4)?;
            put_top(out, register.value)
        }
        State::Fold(_, _) => unreachable!(),
    }
}
