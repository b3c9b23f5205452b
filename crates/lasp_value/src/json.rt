//! Values from trees of JSON.

ghost use Rattle.std.specs.Prelude.{◌≡◌};
ghost use Rattle.serde_json.specs.View.{view};
ghost use Rattle.model_values.specs.Json.{written_value, read_value};
ghost use Rattle.lasp_value.specs.Json.{Gives};

use super::refused::ValueRefused;
use super::size::measure;
use super::text::Text;
use super::value::Value;
use serde_json::Value as Json;
use std::alloc::Global;

/// The value that a tree stands for: a number that fits 64 bits with a sign, a text, or an array of two such values.
/// It has at most 8 numbers and texts, and 256 bytes of text in all; a larger one is refused before memory is taken for it.
#[tactic(auto, unfolding(model_values::specs::Json::read_value))]
pub fn value_of_json(alloc: Global, j: &Json) -> Result<Value, ValueRefused>
    ensures { Gives result (read_value (view j.now)) }
{
    match measure(j) {
        Ok(size) if size.is_small() => build(alloc, j),
        Ok(_) => Err(ValueRefused::TooBig),
        Err(why) => Err(ValueRefused::from(why)),
    }
}

/// The value that a tree stands for, of any size.
fn build(alloc: Global, j: &Json) -> Result<Value, ValueRefused>
    ensures { Gives result (written_value (view j.now)) }
{
    match j {
        Json::Number(n) => match n.as_i64() {
            Some(n) => Ok(Value::Int(n)),
            None => Err(ValueRefused::NumberRefused),
        },
        Json::String(text) => Ok(Value::Text(Text::of(alloc, text.as_str())?)),
        Json::Array(items) => match items.as_slice() {
            [] => Err(ValueRefused::NotAValue),
            [_] => Err(ValueRefused::NotAValue),
            [_, _, _, ..] => Err(ValueRefused::NotAValue),
            [first, second] => {
                let first = build(alloc, first)?;
                let second = build(alloc, second)?;
                Ok(Value::Pair(Box::new(alloc, first)?, Box::new(alloc, second)?))
            }
        },
        Json::Null => Err(ValueRefused::NotAValue),
        Json::Bool(_) => Err(ValueRefused::NotAValue),
        Json::Object(_) => Err(ValueRefused::NotAValue),
    }
}
