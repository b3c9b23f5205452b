//! The trait and its laws.

ghost use Rattle.std.specs.Prelude.{◌≡◌, ◌≢◌, ◌↔◌, IsTrue, IfOk, OnOk, OnErr};

use std::alloc::AllocError;

/// A state of a join semilattice. States are joined and compared only where they are of the same shape, as two counters of equally many nodes.
pub trait Lattice: Drop {
    // what every value of the type is
    ghost is_state: { Self → Type 0 };

    ghost same_shape: { Self → Self → Type 0 };

    // the order
    ghost below: { Self → Self → Type 0 };

    ghost join: { Self → Self → Self };

    // the least state of the shape
    ghost least: { Self → Self };

    /// Recalls, at no cost, that this is a state.
    fn known(&self)
        ensures { is_state self.now };

    /// The least element of the same shape.
    fn bottom_like(&self) -> Result<Self, AllocError>
        ensures { IfOk result (λ b. b ≡ least self.now) };

    /// The lattice order.
    fn le(&self, other: &Self) -> bool
        requires { same_shape self.now other.now }
        ensures { IsTrue result ↔ below self.now other.now };

    /// Joins another state in, and tells whether this one grew.
    fn join_in(&mut self, other: &Self) -> Result<bool, AllocError>
        requires { same_shape self.old other.now }
        ensures ok { OnOk result (self.new ≡ join self.old other.now) }
        ensures grew { IfOk result (λ grew. IsTrue grew ↔ (self.new ≢ self.old)) }
        ensures err { OnErr result (self.new ≡ self.old) };

    // shapes
    ghost shape_reflexive: { (s : Self) → same_shape s s };

    ghost shape_symmetric: { (s t : Self) → same_shape s t → same_shape t s };

    ghost shape_transitive: { (s t u : Self) → same_shape s t → same_shape t u → same_shape s u };

    ghost shape_join: { (s t : Self) → same_shape s t → same_shape s (join s t) };

    ghost shape_least: { (s : Self) → same_shape s (least s) };

    // joins and least elements are states
    ghost state_join: { (s t : Self) → is_state s → is_state t → same_shape s t → is_state (join s t) };

    ghost state_least: { (s : Self) → is_state s → is_state (least s) };

    // the order is a partial order
    ghost reflexive: { (s : Self) → is_state s → below s s };

    ghost transitive: { (s t u : Self) → is_state s → is_state t → is_state u → same_shape s t → same_shape t u → below s t → below t u → below s u };

    ghost antisymmetric: { (s t : Self) → is_state s → is_state t → same_shape s t → below s t → below t s → s ≡ t };

    // the join
    ghost idempotent: { (s : Self) → is_state s → join s s ≡ s };

    ghost commutative: { (s t : Self) → is_state s → is_state t → same_shape s t → join s t ≡ join t s };

    ghost associative: { (s t u : Self) → is_state s → is_state t → is_state u → same_shape s t → same_shape t u → join (join s t) u ≡ join s (join t u) };

    // it is the least upper bound
    ghost upper_left: { (s t : Self) → is_state s → is_state t → same_shape s t → below s (join s t) };

    ghost upper_right: { (s t : Self) → is_state s → is_state t → same_shape s t → below t (join s t) };

    ghost least_upper: { (s t u : Self) → is_state s → is_state t → is_state u → same_shape s t → same_shape t u → below s u → below t u → below (join s t) u };

    // the least element
    ghost lowest: { (s t : Self) → is_state s → is_state t → same_shape s t → below (least s) t };
}
