//! Sets as a lattice.

ghost use Rattle.std.specs.Prelude.{length};
ghost use Rattle.lasp_dots.specs.Prelude.{IsState, HaveSameNodes, no_dots, join_dots, IsAtMost};
ghost use Rattle.std.proofs.Common.{refl, sym, ◌∙◌};
ghost use Rattle.model_dots.proofs.DotLaws as laws;

use super::set::DotSet;
use lasp_value::Lattice;
use std::alloc::AllocError;

impl Lattice for DotSet {
    ghost is_state = { IsState };

    ghost same_shape = { HaveSameNodes };

    ghost below = { IsAtMost };

    ghost join = { join_dots };

    ghost least = { λ s. no_dots (length s.counts) };

    fn known(&self) {
        self.holds()
    }

    fn bottom_like(&self) -> Result<DotSet, AllocError> {
        self.holds();
        DotSet::new(*self.known.allocator(), self.nodes())
    }

    fn le(&self, other: &DotSet) -> bool {
        DotSet::le(self, other)
    }

    fn join_in(&mut self, other: &DotSet) -> Result<bool, AllocError> {
        DotSet::join_in(self, other)
    }

    ghost shape_reflexive = { λ _. refl };

    ghost shape_symmetric = { λ _ _ e. sym e };

    ghost shape_transitive = { λ _ _ _ e f. e ∙ f };

    ghost shape_join = { laws.nodes-join };

    ghost shape_least = { laws.nodes-least };

    ghost state_join = { laws.state-join };

    ghost state_least = { laws.state-least };

    ghost reflexive = { laws.dots-idempotent };

    ghost transitive = { laws.dots-transitive };

    ghost antisymmetric = { laws.dots-antisymmetric };

    ghost idempotent = { laws.dots-idempotent };

    ghost commutative = { laws.dots-commutative };

    ghost associative = { laws.dots-associative };

    ghost upper_left = { laws.dots-left };

    ghost upper_right = { laws.dots-right };

    ghost least_upper = { laws.dots-least_upper };

    ghost lowest = { laws.dots-lowest };
}
