//! Plain sets of values: a lattice under union, and what the plain operations hold.

ghost use Rattle.std.specs.Prelude.{◌≡◌, IsTrue, Bool, List, ◌↔◌, ◌⊎◌};
ghost use Rattle.model_values.specs.Value.{Val, pair};
ghost use Rattle.model_values.specs.Row.{Row};
ghost use Rattle.model_sets.specs.Values.{held, IsHeld, AreAscending, unite, IsWithin, visible};
ghost use Rattle.model_sets.specs.Algebra.{plain_map, plain_filter, plain_union, plain_product, plain_intersection};

/// Plain sets of values are a lattice under union, told by which values they hold.
#[tactic(auto, using(crate::proofs::ValueLaws::union_lattice, crate::proofs::ValueLaws::visible_values))]
pub fn plain_sets_are_a_lattice()
    ensures same { (s t : List Val) → AreAscending s → AreAscending t → ((v : Val) → held s v ≡ held t v) → s ≡ t }
    ensures idempotent { (s : List Val) → AreAscending s → unite s s ≡ s }
    ensures commutative { (s t : List Val) → unite s t ≡ unite t s }
    ensures associative { (s t u : List Val) → unite (unite s t) u ≡ unite s (unite t u) }
    ensures left { (s t : List Val) → IsWithin s (unite s t) }
    ensures right { (s t : List Val) → IsWithin t (unite s t) }
    ensures least { (s t u : List Val) → IsWithin s u → IsWithin t u → IsWithin (unite s t) u }
    ensures within { (s t : List Val) → AreAscending t → IsWithin s t → unite s t ≡ t }
    ensures visible_ascends { (s : List Row) → AreAscending (visible s) }
{}

/// Which values the plain operations hold.
#[tactic(auto, using(crate::proofs::AlgebraLaws::plain_words))]
pub fn plain_operations_hold_these_values()
    ensures map { (f : Val → Val) (s : List Val) (w : Val) → IsHeld (plain_map f s) w ↔ ((u : Val) × (f u ≡ w) × IsHeld s u) }
    ensures filter { (p : Val → Bool) (s : List Val) (v : Val) → IsHeld (plain_filter p s) v ↔ (IsTrue (p v) × IsHeld s v) }
    ensures union { (s t : List Val) (v : Val) → IsHeld (plain_union s t) v ↔ (IsHeld s v ⊎ IsHeld t v) }
    ensures product { (s t : List Val) (u : Val) → IsHeld (plain_product s t) u ↔ ((v : Val) × (w : Val) × (u ≡ pair v w) × IsHeld s v × IsHeld t w) }
    ensures intersection { (s t : List Val) (v : Val) → IsHeld (plain_intersection s t) v ↔ (IsHeld s v × IsHeld t v) }
{}
