//! The thresholds of reads.

ghost use Rattle.std.specs.Prelude.{◌≡◌, ◌≢◌, ℕ, ◌+◌, ◌≤◌, IsTrue, ◌↔◌, ◌⊎◌, List, length, sum};
ghost use Rattle.model_values.specs.Value.{Val};
ghost use Rattle.model_values.specs.Token.{Tok};
ghost use Rattle.model_sets.specs.Rows.{HasRow, IsDeadIn};
ghost use Rattle.model_sets.specs.Values.{IsHeld, AreAscending};
ghost use Rattle.model_states.specs.Content.{Content, IsContentAtMost, IsOrdered};
ghost use Rattle.model_states.specs.Threshold.{Shape, Threshold, AtLeast, Above, Count, Added, Removed, meets};

/// When a content is at a threshold.
#[tactic(auto, using(crate::proofs::ThresholdLaws::words))]
pub fn thresholds_mean_this()
    ensures at_least { (shape : Shape) (t s : Content) → IsTrue (meets (AtLeast shape t) s) ↔ IsContentAtMost t s }
    ensures above { (shape : Shape) (t s : Content) → IsTrue (meets (Above shape t) s) ↔ (IsContentAtMost t s × (IsContentAtMost s t → ⊥)) }
    ensures other { (shape : Shape) (t s : Content) → IsOrdered t → IsOrdered s → length t.counts ≡ length s.counts → IsTrue (meets (Above shape t) s) ↔ (IsContentAtMost t s × (t ≢ s)) }
    ensures count { (k : ℕ) (s : Content) → IsTrue (meets (Count k) s) ↔ (k ≤ length s.values + sum s.counts) }
    ensures added { (vs : List Val) (s : Content) → IsTrue (meets (Added vs) s) ↔ ((v : Val) → IsHeld vs v → ((t : Tok) × HasRow s.rows v t) ⊎ IsHeld s.values v) }
    ensures removed { (vs : List Val) (s : Content) → IsTrue (meets (Removed vs) s) ↔ ((v : Val) → IsHeld vs v → (t : Tok) × IsDeadIn s.rows v t) }
{}

/// What is at a threshold still is after it grew.
#[tactic(auto, using(crate::proofs::ThresholdLaws::growth))]
pub fn thresholds_are_upward_closed()
    ensures every { (threshold : Threshold) (s t : Content) → IsOrdered s → IsOrdered t → IsContentAtMost s t → IsTrue (meets threshold s) → IsTrue (meets threshold t) }
    ensures at_least { (shape : Shape) (u s t : Content) → IsContentAtMost s t → IsTrue (meets (AtLeast shape u) s) → IsTrue (meets (AtLeast shape u) t) }
    ensures above { (shape : Shape) (u s t : Content) → IsContentAtMost s t → IsTrue (meets (Above shape u) s) → IsTrue (meets (Above shape u) t) }
    ensures count { (k : ℕ) (s t : Content) → AreAscending s.values → AreAscending t.values → IsContentAtMost s t → IsTrue (meets (Count k) s) → IsTrue (meets (Count k) t) }
    ensures added { (vs : List Val) (s t : Content) → IsContentAtMost s t → IsTrue (meets (Added vs) s) → IsTrue (meets (Added vs) t) }
    ensures removed { (vs : List Val) (s t : Content) → IsContentAtMost s t → IsTrue (meets (Removed vs) s) → IsTrue (meets (Removed vs) t) }
{}
