//! What loops over rows compute is what the definitions say.

ghost use Rattle.std.specs.Prelude.{◌≡◌, ℕ, ◌+◌, List, None, length, IsPermutation, IsSortedBy};
ghost use Rattle.std.specs.Ordering.{is_lt};
ghost use Rattle.model_values.specs.Row.{Row, key_cmp};
ghost use Rattle.model_sets.specs.Rows.{IsAscending, of_rows, join};
ghost use Rattle.model_sets.specs.Values.{visible};
ghost use Rattle.model_sets.specs.Loops.{merge, collapse, values_after, new_rows};

/// A merge is the join, rows collapsed after a sort are their state, the values that come live along a state are the visible ones, and a join has the rows of the first and the new ones of the second.
#[tactic(auto, using(crate::proofs::LoopLaws::loops))]
pub fn loops_compute_the_definitions()
    ensures merge { (s t : List Row) → IsAscending s → IsAscending t → merge s t ≡ join s t }
    ensures collapse { (raw s : List Row) → IsPermutation raw s → IsSortedBy (λ (a b : Row). is_lt (key_cmp a.0 b.0)) s → collapse s ≡ of_rows raw }
    ensures visible { (s : List Row) → IsAscending s → values_after None s ≡ visible s }
    ensures length { (s t : List Row) → IsAscending s → IsAscending t → length (join s t) ≡ length s + new_rows s t }
{}
