//! Sets as a lattice.

ghost use Rattle.std.specs.Prelude.{[], refl};
ghost use Rattle.std.proofs.Common.{arith};
ghost use Rattle.model_sets.specs.Rows.{IsAscending, IsAtMost, join};
ghost use Rattle.model_sets.proofs.RowLaws as laws;

use super::orset::OrSet;
use lasp_value::Lattice;
use std::alloc::AllocError;

impl Lattice for OrSet {
    ghost is_state = { IsAscending };

    ghost same_shape = { λ _ _. Unit {0} };

    ghost below = { IsAtMost };

    ghost join = { join };

    ghost least = { λ _. [] };

    fn known(&self) {
        self.ascends()
    }

    /// It takes no memory, and so it always succeeds.
    fn bottom_like(&self) -> Result<OrSet, AllocError> {
        Ok(self.empty())
    }

    fn le(&self, other: &OrSet) -> bool {
        OrSet::le(self, other)
    }

    fn join_in(&mut self, other: &OrSet) -> Result<bool, AllocError> {
        OrSet::join_in(self, other)
    }

    ghost shape_reflexive = { λ _. tt };

    ghost shape_symmetric = { λ _ _ _. tt };

    ghost shape_transitive = { λ _ _ _ _ _. tt };

    ghost shape_join = { λ _ _ _. tt };

    ghost shape_least = { λ _. tt };

    ghost state_join = { λ s t _ _ _. laws.ascending-join s t };

    ghost state_least = { λ _ _. refl };

    ghost reflexive = { λ s _. laws.at_most-refl s };

    ghost transitive = { λ s t u _ _ _ _ _. laws.at_most-trans s t u };

    ghost antisymmetric = { λ s t h k _. laws.at_most-antisymmetric s t h k };

    ghost idempotent = { λ s h. laws.join-idempotent s h };

    ghost commutative = { λ s t _ _ _. laws.join-commutative s t };

    ghost associative = { λ s t u _ _ _ _ _. laws.join-associative s t u };

    ghost upper_left = { λ s t _ _ _. laws.join-left s t };

    ghost upper_right = { λ s t _ _ _. laws.join-right s t };

    ghost least_upper = { λ s t u _ _ _ _ _. laws.join-least s t u };

    ghost lowest = { λ s t _ _ _ v w. omega arith };
}
