//! What a pass over rows tells of a value.

ghost use Rattle.std.specs.Prelude.{◌↔◌, IsTrue, Bool, List};
ghost use Rattle.std.specs.List.{list_any};
ghost use Rattle.model_values.specs.Value.{Val};
ghost use Rattle.model_values.specs.Row.{Row};
ghost use Rattle.model_sets.specs.Reads.{is_row_of, HasRowOf};

/// A value has a row, or a dead one, exactly where a pass over the rows in any order finds one.
#[tactic(auto, using(crate::proofs::ReadLaws::reads))]
pub fn passes_find_the_rows_of_a_value()
    ensures { (v : Val) (dead : Bool) (s : List Row) → IsTrue (list_any (is_row_of v dead) s) ↔ HasRowOf s v dead }
{}
