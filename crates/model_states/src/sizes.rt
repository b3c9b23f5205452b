//! How many rows and elements contents have.

ghost use Rattle.std.specs.Prelude.{ℕ, ◌≤◌, List, length};
ghost use Rattle.model_values.specs.Value.{Val};
ghost use Rattle.model_values.specs.Row.{Row};
ghost use Rattle.model_sets.specs.Rows.{IsAscending, IsAtMost};
ghost use Rattle.model_sets.specs.Values.{AreAscending, IsWithin};
ghost use Rattle.model_states.specs.Content.{Content, IsContentAtMost, IsOrdered, size_of};

/// What grows loses no row and no element.
#[tactic(auto, using(crate::proofs::SizeLaws::sizes))]
pub fn greater_contents_are_no_smaller()
    ensures rows { (s t : List Row) → IsAscending s → IsAscending t → IsAtMost s t → length s ≤ length t }
    ensures values { (s t : List Val) → AreAscending s → AreAscending t → IsWithin s t → length s ≤ length t }
    ensures sizes { (s t : Content) → IsOrdered s → IsOrdered t → IsContentAtMost s t → size_of s ≤ size_of t }
{}
