//! The elements of a grow-only set, and values in ascending order.

ghost use Rattle.std.specs.Prelude.{◌≡◌, None, map};
ghost use Rattle.lasp_wire.specs.Prelude.{option_map, val_cmp, list_at, value_at, is_above, latest, value_after_at, elements_at, val_of, Gives, last_of};

use super::numbers::u32_in;
use super::values::value_in;
use crate::refused::ReadError;
use lasp_value::Value;
use model_wire::WireWhy;
use std::alloc::Global;

fn is_value_above(before: Option<&Value>, value: &Value) -> bool
    ensures { result ≡ is_above val_cmp (option_map (λ v. val_of v.now) before.entry) (val_of value.now) }
{
    match before {
        Some(last) => last.cmp(value).is_lt(),
        None => true,
    }
}

/// A value above the last one before it, if there is one.
pub fn value_after<'a>(
    alloc: Global,
    before: Option<&Value>,
    bytes: &'a [u8],
) -> Result<(Value, &'a [u8]), ReadError>
    ensures { Gives (λ x. (val_of x.0, x.1.now)) result (value_after_at (option_map (λ v. val_of v.now) before.entry) bytes.now) }
{
    let (value, rest) = value_in(alloc, bytes)?;
    if is_value_above(before, &value) {
        Ok((value, rest))
    } else {
        Err(ReadError::At(bytes.len(), WireWhy::Order))
    }
}

fn last_value(values: &[Value]) -> Option<&Value>
    ensures { option_map (λ v. val_of v.now) result ≡ last_of (map val_of values.now) }
{
    values.last()
}

fn elements_of(alloc: Global, count: u32, bytes: &[u8]) -> Result<(Vec<Value>, &[u8]), ReadError>
    ensures { Gives (λ x. (map val_of x.0.items, x.1.now)) result (list_at value_after_at latest count None bytes.now) }
{
    let mut values: Vec<Value> = Vec::new(alloc);
    let mut rest = bytes;
    for _ in 0..count {
        let (value, after) = value_after(alloc, last_value(&values), rest)?;
        values.push(value)?;
        rest = after;
    }
    Ok((values, rest))
}

/// The elements of a grow-only set, with their number before them.
#[tactic(auto, unfolding(model_wire::specs::Message::elements_at))]
pub fn elements_in(alloc: Global, bytes: &[u8]) -> Result<(Vec<Value>, &[u8]), ReadError>
    ensures { Gives (λ x. (map val_of x.0.items, x.1.now)) result (elements_at bytes.now) }
{
    let (count, rest) = u32_in(bytes, 0, 65_536)?;
    elements_of(alloc, count, rest)
}
