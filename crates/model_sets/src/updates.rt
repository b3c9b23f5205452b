//! What an add and a remove do to what is visible (observed-remove sets, Shapiro et al. 2011).

ghost use Rattle.std.specs.Prelude.{◌≡◌, ◌≢◌, ℕ, List, if◌then◌else◌, ◌==◌};
ghost use Rattle.std.specs.Ordering.{eq_by_cmp};
ghost use Rattle.model_values.specs.Value.{Val, val_cmp};
ghost use Rattle.model_values.specs.Token.{Tok, single};
ghost use Rattle.model_values.specs.Row.{Row};
ghost use Rattle.model_sets.specs.Rows.{mark, IsAscending, join, add_delta, remove_delta};
ghost use Rattle.model_sets.specs.Values.{held, IsHeld, visible};

/// A remove buries the rows of its value that it observes, an add brings one live row with a fresh token; so an add that a remove did not observe survives it.
#[tactic(auto, using(crate::proofs::UpdateLaws::updates))]
pub fn adds_survive_removes_that_did_not_observe_them()
    ensures remove_ascends { (v : Val) (s : List Row) → IsAscending s → IsAscending (remove_delta v s) }
    ensures remove_rows { (v : Val) (s : List Row) (u : Val) (w : Tok) → mark (remove_delta v s) u w ≡ (if eq_by_cmp val_cmp v u then (if mark s u w == 0 then 0 else 2) else 0) }
    ensures removed { (s : List Row) (v : Val) → IsAscending s → held (visible (join s (remove_delta v s))) v ≡ 0 }
    ensures others_left { (s : List Row) (v u : Val) → IsAscending s → v ≢ u → held (visible (join s (remove_delta v s))) u ≡ held (visible s) u }
    ensures added { (s : List Row) (v : Val) (replica k : ℕ) → IsAscending s → mark s v (single replica k) ≡ 0 → IsHeld (visible (join s (add_delta v replica k))) v }
    ensures others_kept { (s : List Row) (v u : Val) (replica k : ℕ) → IsAscending s → v ≢ u → held (visible (join s (add_delta v replica k))) u ≡ held (visible s) u }
    ensures concurrent { (s : List Row) (v : Val) (replica k : ℕ) → IsAscending s → mark s v (single replica k) ≡ 0 → IsHeld (visible (join (join s (remove_delta v s)) (add_delta v replica k))) v }
{}
