//! What updates join in, operation by operation.

ghost use Rattle.std.specs.Prelude.{◌≡◌, ◌≢◌, ℕ, ℤ, ◌+◌, ◌<◌, min, ◌↔◌, length, Some};
ghost use Rattle.model_values.specs.Value.{Val};
ghost use Rattle.model_values.specs.Token.{Tok, single};
ghost use Rattle.model_sets.specs.Rows.{HasRow, IsDeadIn};
ghost use Rattle.model_sets.specs.Values.{IsHeld};
ghost use Rattle.model_states.specs.Counts.{count_max, count_at};
ghost use Rattle.model_states.specs.Content.{Content, join_contents, IsOrdered};
ghost use Rattle.model_states.specs.Threshold.{Shape, set, grow, counter, register};
ghost use Rattle.model_states.specs.Shape.{HasShape};
ghost use Rattle.model_states.specs.Update.{Add, Remove, Insert, Inc, Max, delta};

/// Contents of one shape join to one of this shape, and have as many counts.
#[tactic(auto, using(crate::proofs::DeltaLaws::shapes))]
pub fn shapes_are_kept()
    ensures join { (shape : Shape) (s t : Content) → HasShape shape s → HasShape shape t → HasShape shape (join_contents s t) }
    ensures counts { (shape : Shape) (s t : Content) → HasShape shape s → HasShape shape t → length s.counts ≡ length t.counts }
{}

/// Each delta is ordered and has the part of its own kind alone; a `Join` brings the content that it has.
#[tactic(auto, using(crate::proofs::DeltaLaws::delta_shapes))]
pub fn deltas_are_of_their_shape()
    ensures add { (v : Val) (s : Content) (replica k : ℕ) → IsOrdered (delta (Add v) s replica k) × HasShape set (delta (Add v) s replica k) }
    ensures remove { (v : Val) (s : Content) (replica k : ℕ) → IsOrdered s → IsOrdered (delta (Remove v) s replica k) × HasShape set (delta (Remove v) s replica k) }
    ensures insert { (v : Val) (s : Content) (replica k : ℕ) → IsOrdered (delta (Insert v) s replica k) × HasShape grow (delta (Insert v) s replica k) }
    ensures inc { (by : ℕ) (s : Content) (replica k : ℕ) → IsOrdered (delta (Inc by) s replica k) × HasShape (counter (length s.counts)) (delta (Inc by) s replica k) }
    ensures max { (n : ℤ) (s : Content) (replica k : ℕ) → IsOrdered (delta (Max n) s replica k) × HasShape register (delta (Max n) s replica k) }
{}

/// What stands in each delta: an add has one live row with its own token, a remove the seen rows of its value, each dead, an insert its value, a count the replica's own count, and a number itself.
#[tactic(auto, using(crate::proofs::DeltaLaws::delta_keys))]
pub fn deltas_have_these_keys()
    ensures add { (v : Val) (s : Content) (replica k : ℕ) (u : Val) (t : Tok) → HasRow (delta (Add v) s replica k).rows u t ↔ ((u ≡ v) × (t ≡ single replica k)) }
    ensures live { (v : Val) (s : Content) (replica k : ℕ) (u : Val) (t : Tok) → IsDeadIn (delta (Add v) s replica k).rows u t → ⊥ }
    ensures remove { (v : Val) (s : Content) (replica k : ℕ) (u : Val) (t : Tok) → HasRow (delta (Remove v) s replica k).rows u t ↔ ((u ≡ v) × HasRow s.rows v t) }
    ensures dead { (v : Val) (s : Content) (replica k : ℕ) (u : Val) (t : Tok) → HasRow (delta (Remove v) s replica k).rows u t → IsDeadIn (delta (Remove v) s replica k).rows u t }
    ensures insert { (v : Val) (s : Content) (replica k : ℕ) (u : Val) → IsHeld (delta (Insert v) s replica k).values u ↔ (u ≡ v) }
    ensures own { (by : ℕ) (s : Content) (replica k : ℕ) → replica < length s.counts → count_at (delta (Inc by) s replica k).counts replica ≡ min (count_at s.counts replica + by) count_max }
    ensures others { (by : ℕ) (s : Content) (replica k q : ℕ) → replica < length s.counts → q ≢ replica → count_at (delta (Inc by) s replica k).counts q ≡ 0 }
    ensures top { (n : ℤ) (s : Content) (replica k : ℕ) → (delta (Max n) s replica k).top ≡ Some n }
{}
