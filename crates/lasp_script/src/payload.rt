//! What words bring: values, the steps of a counter, the number of a register or of a count.

ghost use Rattle.std.specs.Prelude.{◌≡◌, [], map};
ghost use Rattle.serde_json.specs.View.{view, number_view};
ghost use Rattle.lasp_value.specs.Value.{val_of};
ghost use Rattle.lasp_script.specs.Made.{value_read, values_from, step_read, top_read, count_read};
ghost use Rattle.lasp_script.specs.Answers.{Answers};

use super::refused::CommandRefused;
use lasp_value::{Value, ValueRefused, Values, value_of_json};
use model_scripts::ScriptWhy;
use serde_json::{Number, Value as Json};
use std::alloc::Global;

/// The most that one update counts.
const STEP_LIMIT: u64 = 4_294_967_295;

/// The value that a tree stands for.
#[tactic(auto, unfolding(crate::specs::Made::value_read))]
pub(crate) fn read_value(alloc: Global, j: &Json) -> Result<Value, CommandRefused>
    ensures { Answers val_of result (value_read (view j.now)) }
{
    match value_of_json(alloc, j) {
        Ok(value) => Ok(value),
        Err(ValueRefused::NotAValue) => Err(CommandRefused::Because(ScriptWhy::ValueRefused)),
        Err(ValueRefused::NumberRefused) => Err(CommandRefused::Because(ScriptWhy::ValueRefused)),
        Err(ValueRefused::TooBig) => Err(CommandRefused::Because(ScriptWhy::ValueRefused)),
        Err(ValueRefused::Memory) => Err(CommandRefused::Memory),
    }
}

/// The values that trees stand for, in their order.
pub(crate) fn read_values(alloc: Global, items: &[Json]) -> Result<Values, CommandRefused>
    ensures { Answers (λ vs. vs) result (values_from [] (map view items.now)) }
{
    let mut values = Values::new(alloc);
    for j in items {
        match read_value(alloc, j) {
            Ok(value) => values.push(value)?,
            Err(refused) => return Err(refused),
        }
    }
    Ok(values)
}

/// How many more an update counts.
#[tactic(auto, unfolding(crate::specs::Made::step_read, model_scripts::specs::Parts::step_of))]
pub(crate) fn read_step(n: &Number) -> Result<u32, ScriptWhy>
    ensures { result ≡ step_read (number_view n.now) }
{
    match n.as_u64() {
        Some(step) if 1 <= step && step <= STEP_LIMIT => Ok(step as u32),
        _ => Err(ScriptWhy::ValueRefused),
    }
}

/// The number that a register is raised to.
#[tactic(auto, unfolding(crate::specs::Made::top_read))]
pub(crate) fn read_top(n: &Number) -> Result<i64, ScriptWhy>
    ensures { result ≡ top_read (number_view n.now) }
{
    match n.as_i64() {
        Some(top) => Ok(top),
        None => Err(ScriptWhy::ValueRefused),
    }
}

/// The number that a count has to reach.
#[tactic(auto, unfolding(crate::specs::Made::count_read))]
pub(crate) fn read_count(n: &Number) -> Result<u64, ScriptWhy>
    ensures { result ≡ count_read (number_view n.now) }
{
    match n.as_u64() {
        Some(count) => Ok(count),
        None => Err(ScriptWhy::ValueRefused),
    }
}
