//! Grow-only sets as a lattice.

ghost use Rattle.std.specs.Prelude.{◌++◌, [], refl};
ghost use Rattle.lasp_state.specs.Prelude.{AreAscending, unite, IsWithin};
ghost use Rattle.std.proofs.Common.{arith};
ghost use Rattle.model_sets.proofs.ValueLaws as laws;

use super::gset::GSet;
use lasp_value::Lattice;
use std::alloc::AllocError;

impl Lattice for GSet {
    ghost is_state = { AreAscending };

    ghost same_shape = { λ _ _. Unit {0} };

    ghost below = { IsWithin };

    ghost join = { unite };

    ghost least = { λ _. [] };

    fn known(&self) {
        self.ascends()
    }

    /// It takes no memory, and so it always succeeds.
    fn bottom_like(&self) -> Result<GSet, AllocError> {
        Ok(self.empty())
    }

    fn le(&self, other: &GSet) -> bool {
        self.is_within(other)
    }

    fn join_in(&mut self, other: &GSet) -> Result<bool, AllocError> {
        self.unite(other)
    }

    ghost shape_reflexive = { λ _. tt };

    ghost shape_symmetric = { λ _ _ _. tt };

    ghost shape_transitive = { λ _ _ _ _ _. tt };

    ghost shape_join = { λ _ _ _. tt };

    ghost shape_least = { λ _. tt };

    ghost state_join = { λ s t _ _ _. laws.ascending-of_values (s ++ t) };

    ghost state_least = { λ _ _. refl };

    ghost reflexive = { λ s _ v. omega arith };

    ghost transitive = { λ s t u _ _ _ _ _ a b v. omega (arith, a v, b v) };

    ghost antisymmetric = { λ s t h k _. laws.within-antisymmetric s t h k };

    ghost idempotent = { λ s h. laws.unite-idempotent s h };

    ghost commutative = { λ s t _ _ _. laws.unite-commutative s t };

    ghost associative = { λ s t u _ _ _ _ _. laws.unite-associative s t u };

    ghost upper_left = { λ s t _ _ _. laws.unite-left s t };

    ghost upper_right = { λ s t _ _ _. laws.unite-right s t };

    ghost least_upper = { λ s t u _ _ _ _ _. laws.unite-least s t u };

    ghost lowest = { λ s t _ _ _ v. omega arith };
}
