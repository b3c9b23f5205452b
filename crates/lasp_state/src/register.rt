//! The register that keeps the greatest number.

ghost use Rattle.std.specs.Prelude.{◌≡◌, ◌≢◌, ◌↔◌, IsTrue, IfOk, IsOk, OnOk};
ghost use Rattle.lasp_state.specs.Prelude.{later, IsNotLater};
ghost use Rattle.model_states.proofs.RegisterLaws as order;
ghost use Rattle.lasp_state.specs.RegisterLaws as laws;

use lasp_value::Lattice;
use std::alloc::AllocError;

/// The greatest number that was joined in, or none yet.
#[derive(Clone, Copy, Drop)]
pub struct MaxReg {
    pub value: Option<i64>,
}

impl MaxReg {
    /// Joins another register in, and tells whether this one grew.
    #[tactic(auto, using(crate::specs::RegisterLaws::lattice))]
    pub fn raise(&mut self, other: &MaxReg) -> bool
        ensures ok { self.new.value ≡ later self.old.value other.now.value }
        ensures grew { IsTrue result ↔ (self.new ≢ self.old) }
    {
        let grew = !other.is_not_later(self);
        if grew {
            *self = *other;
        }
        grew
    }

    /// The order: whether the other register came at least as far.
    pub fn is_not_later(&self, other: &MaxReg) -> bool
        ensures { IsTrue result ↔ IsNotLater self.now.value other.now.value }
    {
        match (self.value, other.value) {
            (None, _) => true,
            (Some(_), None) => false,
            (Some(mine), Some(theirs)) => mine <= theirs,
        }
    }
}

impl Lattice for MaxReg {
    ghost use Rattle.std.specs.Prelude.{None};

    ghost is_state = { λ _. Unit {0} };

    ghost same_shape = { λ _ _. Unit {0} };

    ghost below = { λ s t. IsNotLater s.value t.value };

    ghost join = { λ s t. record { value = later s.value t.value } };

    ghost least = { λ _. record { value = None } };

    fn known(&self) {}

    fn bottom_like(&self) -> Result<MaxReg, AllocError> {
        Ok(MaxReg { value: None })
    }

    fn le(&self, other: &MaxReg) -> bool {
        self.is_not_later(other)
    }

    /// It takes no memory, and so it always succeeds.
    fn join_in(&mut self, other: &MaxReg) -> Result<bool, AllocError>
        ensures always { IsOk result }
        ensures ok { self.new.value ≡ later self.old.value other.now.value }
        ensures grew { IfOk result (λ grew. IsTrue grew ↔ (self.new ≢ self.old)) }
    {
        Ok(self.raise(other))
    }

    ghost shape_reflexive = { λ _. tt };

    ghost shape_symmetric = { λ _ _ _. tt };

    ghost shape_transitive = { λ _ _ _ _ _. tt };

    ghost shape_join = { λ _ _ _. tt };

    ghost shape_least = { λ _. tt };

    ghost state_join = { λ _ _ _ _ _. tt };

    ghost state_least = { λ _ _. tt };

    ghost reflexive = { λ s _. laws.not_later-reflexive s.value };

    ghost transitive = { λ s t u _ _ _ _ _. laws.not_later-transitive s.value t.value u.value };

    ghost antisymmetric = { λ s t _ _ _ a b i. record { value = order.not_later-antisymmetric s.value t.value a b i } };

    ghost idempotent = { λ s _ i. record { value = laws.later-idempotent s.value i } };

    ghost commutative = { λ s t _ _ _ i. record { value = laws.later-commutative s.value t.value i } };

    ghost associative = { λ s t u _ _ _ _ _ i. record { value = laws.later-associative s.value t.value u.value i } };

    ghost upper_left = { λ s t _ _ _. laws.later-left s.value t.value };

    ghost upper_right = { λ s t _ _ _. laws.later-right s.value t.value };

    ghost least_upper = { λ s t u _ _ _ _ _. laws.later-least s.value t.value u.value };

    ghost lowest = { λ _ _ _ _ _. tt };
}
