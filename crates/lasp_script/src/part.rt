//! The single parts of commands and thresholds, where the array has the right size.

ghost use Rattle.std.specs.Prelude.{◌≡◌, option_map, map};
ghost use Rattle.serde_json.specs.View.{view, number_view};
ghost use Rattle.model_readings.specs.Tree.{text_at, number_at};
ghost use Rattle.model_scripts.specs.Word.{of_size, list_at};

use lasp_graph::{has_items, number_at, text_at};
use serde_json::{Number, Value as Json};

/// The name behind the word, where nothing else stands there.
pub(crate) fn name_part(j: &Json) -> Option<&str>
    ensures { option_map (λ s. s.now) result ≡ of_size 2 (view j.now) (text_at 1 (view j.now)) }
{
    if has_items(j, 2) { text_at(j, 1) } else { None }
}

/// The number behind the word, where nothing else stands there.
pub(crate) fn number_part(j: &Json) -> Option<&Number>
    ensures { option_map (λ n. number_view n.now) result ≡ of_size 2 (view j.now) (number_at 1 (view j.now)) }
{
    if has_items(j, 2) {
        number_at(j, 1)
    } else {
        None
    }
}

/// The parts of the array behind the word, where nothing else stands there.
#[tactic(auto, using(lasp_graph::proofs::Items::lists))]
pub(crate) fn list_part(j: &Json) -> Option<&[Json]>
    ensures { option_map (λ vs. map view vs.now) result ≡ of_size 2 (view j.now) (list_at 1 (view j.now)) }
{
    if !has_items(j, 2) {
        return None;
    }
    let items = j.get(1usize)?.as_array()?;
    Some(items)
}
