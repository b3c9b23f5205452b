//! Laws of states, of whatever kind. There is nothing to run here: each function's contract is a group of laws.

ghost use Rattle.std.specs.Prelude.{◌≡◌, ℤ, IsTrue};
ghost use Rattle.model_states.specs.Content.{Content, IsContentAtMost, IsOrdered};
ghost use Rattle.model_states.specs.Threshold.{Shape, suits, meets};
ghost use Rattle.lasp_state.specs.State.{content_of, shape_of, AreJoinable};
ghost use Rattle.lasp_state.specs.Joined.{Joins, IsOf};
ghost use Rattle.lasp_state.specs.Threshold.{threshold_of};

use super::state::State;
use super::threshold::Threshold;

/// The states of one shape are a lattice under the join, those of a fold as far as one covers the other.
pub fn states_are_a_lattice()
    ensures same { (number : Content → ℤ) (shape : Shape) (s t : State) → IsOf number shape s → IsOf number shape t → content_of s ≡ content_of t → s ≡ t }
    ensures kept { (number : Content → ℤ) (shape : Shape) (s t r : State) → IsOf number shape s → IsOf number shape t → AreJoinable s t → Joins s t r → IsOf number shape r }
    ensures idempotent { (number : Content → ℤ) (shape : Shape) (s r : State) → IsOf number shape s → Joins s s r → r ≡ s }
    ensures commutative { (number : Content → ℤ) (shape : Shape) (s t r q : State) → IsOf number shape s → IsOf number shape t → AreJoinable s t → Joins s t r → Joins t s q → r ≡ q }
    ensures associative { (number : Content → ℤ) (shape : Shape) (s t u a b r q : State) → IsOf number shape s → IsOf number shape t → IsOf number shape u → AreJoinable s t → AreJoinable t u → AreJoinable s u → Joins s t a → Joins a u r → Joins t u b → Joins s b q → r ≡ q }
    ensures left { (s t r : State) → Joins s t r → IsContentAtMost (content_of s) (content_of r) }
    ensures right { (s t r : State) → Joins s t r → IsContentAtMost (content_of t) (content_of r) }
    ensures upper { (s t r u : State) → Joins s t r → IsContentAtMost (content_of s) (content_of u) → IsContentAtMost (content_of t) (content_of u) → IsContentAtMost (content_of r) (content_of u) }
    ensures antisymmetric { (number : Content → ℤ) (shape : Shape) (s t : State) → IsOf number shape s → IsOf number shape t → IsContentAtMost (content_of s) (content_of t) → IsContentAtMost (content_of t) (content_of s) → s ≡ t }
{}

/// A threshold suits states by their shape alone, and what is at it still is after it grew.
pub fn thresholds_stay_met()
    ensures suits { (threshold : Threshold) (s t : State) → shape_of s ≡ shape_of t → suits (threshold_of threshold) (shape_of s) ≡ suits (threshold_of threshold) (shape_of t) }
    ensures meets { (threshold : Threshold) (s t : State) → IsOrdered (content_of s) → IsOrdered (content_of t) → IsContentAtMost (content_of s) (content_of t) → IsTrue (meets (threshold_of threshold) (content_of s)) → IsTrue (meets (threshold_of threshold) (content_of t)) }
{}
