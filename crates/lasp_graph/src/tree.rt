//! What stands at the places of a JSON array.

ghost use Rattle.std.specs.Prelude.{◌≡◌, option_map};
ghost use Rattle.lasp_graph.specs.Prelude.{view, number_view, text_at, number_at, is_word_at, has_items};

use serde_json::{Number, Value as Json};

/// The text at a place.
pub fn text_at(j: &Json, i: usize) -> Option<&str>
    ensures { option_map (λ s. s.now) result ≡ text_at i (view j.now) }
{
    j.get(i).and_then(Json::as_str)
}

/// The number at a place.
pub fn number_at(j: &Json, i: usize) -> Option<&Number>
    ensures { option_map (λ n. number_view n.now) result ≡ number_at i (view j.now) }
{
    j.get(i).and_then(Json::as_number)
}

/// Whether the word stands at a place.
#[tactic(auto, unfolding(model_readings::specs::Tree::is_word_at))]
pub fn is_word_at(j: &Json, i: usize, word: &str) -> bool
    ensures { result ≡ is_word_at i word.now (view j.now) }
{
    match text_at(j, i) {
        Some(text) => text == word,
        None => false,
    }
}

/// Whether it is an array of so many parts.
#[tactic(auto, using(crate::proofs::Items::lengths), unfolding(model_readings::specs::Tree::has_items))]
pub fn has_items(j: &Json, n: usize) -> bool
    ensures { result ≡ has_items n (view j.now) }
{
    match j.as_array() {
        Some(items) => items.len() == n,
        None => false,
    }
}
