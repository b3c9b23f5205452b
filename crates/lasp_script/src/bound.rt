//! The forms of a threshold.

ghost use Rattle.std.specs.Prelude.{◌≡◌, option_map};
ghost use Rattle.serde_json.specs.View.{view};
ghost use Rattle.model_scripts.specs.Word.{bound_of};
ghost use Rattle.lasp_script.specs.Word.{bound_view};

use super::part::{list_part, name_part, number_part};
use lasp_graph::is_word_at;
use serde_json::{Number, Value as Json};

/// A threshold as it is written: by the name of a mark, a number, or values.
#[derive(Clone, Copy)]
pub(crate) enum Bound<'a> {
    AtLeast(&'a str),
    Above(&'a str),
    Count(&'a Number),
    Added(&'a [Json]),
    Removed(&'a [Json]),
}

/// The threshold that a tree is the form of.
#[tactic(auto, using(crate::proofs::Forms::bounds), unfolding(crate::specs::Word::bound_from))]
pub(crate) fn bound_of(j: &Json) -> Option<Bound<'_>>
    ensures { option_map bound_view result ≡ bound_of (view j.now) }
{
    if is_word_at(j, 0, "at_least") {
        name_part(j).map(Bound::AtLeast)
    } else if is_word_at(j, 0, "above") {
        name_part(j).map(Bound::Above)
    } else if is_word_at(j, 0, "count") {
        number_part(j).map(Bound::Count)
    } else if is_word_at(j, 0, "added") {
        list_part(j).map(Bound::Added)
    } else if is_word_at(j, 0, "removed") {
        list_part(j).map(Bound::Removed)
    } else {
        None
    }
}
