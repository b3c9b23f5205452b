//! What a set with tombstones is without them: its live rows and the counts of its node.

ghost use Rattle.std.specs.Prelude.{◌≡◌, ℕ, ◌+◌, List};
ghost use Rattle.model_values.specs.Value.{Val};
ghost use Rattle.model_values.specs.Row.{Row};
ghost use Rattle.model_sets.specs.Rows.{IsAscending, join, add_delta, remove_delta};
ghost use Rattle.model_sets.specs.Values.{visible};
ghost use Rattle.model_states.specs.Counts.{count_at, larger};
ghost use Rattle.model_dots.specs.Dots.{join_dots, raised, add_dot, remove_dots, dots_of, AreGiven, HasWhatIsCounted};

/// The set without tombstones shows the same values. Its add, remove and join are those of the set with tombstones, where each row's update is counted, and of two that are joined each has the rows of the other whose updates it counts.
#[tactic(auto, using(crate::proofs::StandLaws::dots_stand))]
pub fn live_rows_and_counts_stand_for_all_rows()
    ensures shown { (rows : List Row) (counts : List ℕ) → visible (dots_of rows counts).rows ≡ visible rows }
    ensures add { (v : Val) (node : ℕ) (rows : List Row) (counts : List ℕ) → IsAscending rows → AreGiven rows counts → dots_of (join rows (add_delta v node (count_at counts node + 1))) (raised counts node) ≡ add_dot v node (dots_of rows counts) }
    ensures remove { (v : Val) (node : ℕ) (rows : List Row) (counts : List ℕ) → IsAscending rows → dots_of (join rows (remove_delta v rows)) (raised counts node) ≡ remove_dots v node (dots_of rows counts) }
    ensures joined { (s : List Row) (c : List ℕ) (t : List Row) (d : List ℕ) → IsAscending s → IsAscending t → AreGiven s c → AreGiven t d → HasWhatIsCounted s c t → HasWhatIsCounted t d s → dots_of (join s t) (larger c d) ≡ join_dots (dots_of s c) (dots_of t d) }
{}
