//! The parts of contents that are no sets: counts and registers.

ghost use Rattle.std.specs.Prelude.{◌≡◌, ℕ, ℤ, ◌≤◌, max, IsTrue, ◌↔◌, List, length, sum, Option};
ghost use Rattle.model_states.specs.Counts.{count_at, larger, AreCountsAtMost, are_counts_at_most};
ghost use Rattle.model_states.specs.Register.{later, IsNotLater, is_not_later, reaches};

/// Counts are a lattice, node by node, and a total only rises.
#[tactic(auto, using(crate::proofs::CountLaws::count_laws))]
pub fn counts_are_a_lattice()
    ensures node { (s t : List ℕ) (node : ℕ) → count_at (larger s t) node ≡ max (count_at s node) (count_at t node) }
    ensures long { (s t : List ℕ) → length (larger s t) ≡ max (length s) (length t) }
    ensures idempotent { (s : List ℕ) → larger s s ≡ s }
    ensures commutative { (s t : List ℕ) → larger s t ≡ larger t s }
    ensures associative { (s t u : List ℕ) → larger (larger s t) u ≡ larger s (larger t u) }
    ensures at_most { (s t : List ℕ) → length s ≤ length t → AreCountsAtMost s t → larger s t ≡ t }
    ensures antisymmetric { (s t : List ℕ) → length s ≡ length t → AreCountsAtMost s t → AreCountsAtMost t s → s ≡ t }
    ensures test { (s t : List ℕ) → IsTrue (are_counts_at_most s t) ↔ AreCountsAtMost s t }
    ensures total { (s t : List ℕ) → AreCountsAtMost s t → sum s ≤ sum t }
{}

/// Registers are told by the numbers that they reached; the later of two reached what either did.
#[tactic(auto, using(crate::proofs::RegisterLaws::register_laws))]
pub fn registers_are_told_by_what_they_reached()
    ensures later { (s t : Option ℤ) (n : ℤ) → reaches (later s t) n ≡ max (reaches s n) (reaches t n) }
    ensures order { (s t : Option ℤ) → IsNotLater s t ↔ ((n : ℤ) → reaches s n ≤ reaches t n) }
    ensures same { (s t : Option ℤ) → ((n : ℤ) → reaches s n ≡ reaches t n) → s ≡ t }
    ensures test { (s t : Option ℤ) → IsTrue (is_not_later s t) ↔ IsNotLater s t }
{}
