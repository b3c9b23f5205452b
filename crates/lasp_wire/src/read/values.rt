//! Values, with what may still stand in them.

ghost use Rattle.std.specs.Prelude.{◌≡◌, ◌≤◌, ◌+◌, suc, IfOk, length, if◌then◌else◌, Some, None};
ghost use Rattle.lasp_wire.specs.Prelude.{is_utf8, option_map, text_at, part, part_at, value_at, val_of, Gives};

use super::numbers::{bytes_at, i64_at, kind_in, u16_in};
use crate::refused::ReadError;
use lasp_value::{Text, Value};
use model_wire::WireWhy;
use std::alloc::Global;
use std::str;

pub fn utf8_of(bytes: &[u8]) -> Option<&str>
    ensures { option_map (λ s. s.now) result ≡ (if is_utf8 bytes.now then Some bytes.now else None) }
{
    match str::from_utf8(bytes) {
        Ok(text) => Some(text),
        Err(_) => None,
    }
}

/// A text of at most so many bytes.
#[tactic(auto, unfolding(model_wire::specs::Value::text_at))]
fn text_in(bytes: &[u8], room: u16) -> Result<(&str, &[u8]), ReadError>
    ensures exact { Gives (λ x. (x.0.now, x.1.now)) result (text_at room bytes.now) }
    ensures within { IfOk result (λ x. length x.0.now ≤ room) }
{
    let (len, rest) = u16_in(bytes, 0, room)?;
    let (field, after) = bytes_at(rest, len as usize)?;
    match utf8_of(field) {
        Some(text) => Ok((text, after)),
        None => Err(ReadError::At(rest.len(), WireWhy::Text)),
    }
}

/// A value that was read, and how many pairs and bytes of text may still stand in the whole.
#[derive(Drop)]
pub struct Part {
    pub value: Value,
    pub pairs: u8,
    pub room: u16,
}

/// A value in which so many pairs and bytes of text may stand.
#[tactic(auto, unfolding(model_wire::specs::Value::part_at))]
fn part_in(alloc: Global, bytes: &[u8], pairs: u8, room: u16) -> Result<(Part, &[u8]), ReadError>
    ensures exact { Gives (λ x. (part (val_of x.0.value) x.0.pairs x.0.room, x.1.now)) result (part_at (suc pairs) pairs room bytes.now) }
    ensures fewer { IfOk result (λ x. x.0.pairs ≤ pairs) }
{
    let (tag, rest) = kind_in(bytes, 0, 2)?;
    match tag {
        0 => {
            let (n, rest) = i64_at(rest)?;
            Ok((part_of(Value::Int(n), pairs, room), rest))
        }
        1 => {
            let (text, rest) = text_in(rest, room)?;
            let left = room - text.len() as u16;
            let text = Text::of(alloc, text)?;
            Ok((part_of(Value::Text(text), pairs, left), rest))
        }
        _ => {
            if pairs == 0 {
                return Err(ReadError::At(bytes.len(), WireWhy::Range));
            }
            let (first, rest) = part_in(alloc, rest, pairs - 1, room)?;
            let (second, rest) = part_in(alloc, rest, first.pairs, first.room)?;
            let pair = Value::Pair(
                Box::new(alloc, first.value)?,
                Box::new(alloc, second.value)?,
            );
            Ok((part_of(pair, second.pairs, second.room), rest))
        }
    }
}

fn part_of(value: Value, pairs: u8, room: u16) -> Part
    ensures { (result.value ≡ value) × (result.pairs ≡ pairs) × (result.room ≡ room) }
{
    Part { value, pairs, room }
}

/// A value of a source.
#[tactic(auto, unfolding(model_wire::specs::Value::value_at))]
pub fn value_in(alloc: Global, bytes: &[u8]) -> Result<(Value, &[u8]), ReadError>
    ensures { Gives (λ x. (val_of x.0, x.1.now)) result (value_at bytes.now) }
{
    let (part, rest) = part_in(alloc, bytes, 7, 256)?;
    Ok((part.value, rest))
}
