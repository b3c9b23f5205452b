//! Logs of rows, each of which raises what the rows before it say.

ghost use Rattle.std.specs.Prelude.{◌≡◌, ℕ, List, [], ◌++◌, take, drop};
ghost use Rattle.model_values.specs.Row.{Row};
ghost use Rattle.model_sets.specs.Rows.{IsAscending, of_rows, join};
ghost use Rattle.model_sets.specs.Equations.{changed};
ghost use Rattle.model_sets.specs.Rises.{AreRises};

/// Behind each place of such a log stands what changed since, what is new of one log goes behind another one, and the two together are the join.
#[tactic(auto, using(crate::proofs::RiseLaws::rises))]
pub fn logs_tell_what_changed()
    ensures since { (log : List Row) (m : ℕ) → AreRises [] log → of_rows (drop m log) ≡ changed (of_rows (take m log)) (of_rows log) }
    ensures state { (s : List Row) → IsAscending s → AreRises [] s }
    ensures news { (log more : List Row) → AreRises [] log → AreRises [] more → AreRises [] (log ++ changed log more) }
    ensures joined { (log more : List Row) → of_rows (log ++ changed log more) ≡ join (of_rows log) (of_rows more) }
{}
