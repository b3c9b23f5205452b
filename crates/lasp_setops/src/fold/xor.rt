//! Numbers under the xor of their bits.

ghost use Rattle.lasp_setops.specs.Prelude.{combined, inverse, is_member, taken};
ghost use Rattle.model_graph.specs.Graph as op;
ghost use Rattle.std.specs.Prelude.{pos};
ghost use Rattle.lasp_setops.specs.GroupLaws as laws;

use super::group::FoldGroup;

/// Combines the bits of the lifts, as numbers of 128 bits in two's complement. Each number of 128 bits is a member, of size 0.
#[derive(Clone, Copy, Drop)]
pub struct Xor;

impl FoldGroup for Xor {
    ghost is_group = { λ _. Unit {0} };

    ghost is_member = { λ _. is_member op.Xor };

    ghost unit = { λ _. pos 0 };

    ghost combined = { λ _. combined op.Xor };

    ghost undone = { λ _. inverse op.Xor };

    ghost taken = { λ _. taken op.Xor };

    ghost size = { λ _ _. 0 };

    fn known(&self) {}

    fn neutral(&self) -> i128 {
        0
    }

    fn op(&self, a: i128, b: i128) -> i128 {
        a ^ b
    }

    fn inverse(&self, a: i128) -> i128 {
        a
    }

    fn lift_in(&self, n: i64) -> i128 {
        n as i128
    }

    fn member(&self, _a: i128) -> bool {
        true
    }

    ghost laws = { λ _ _. laws.bits };
}
