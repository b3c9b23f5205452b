//! Numbers under their sum.

ghost use Rattle.lasp_setops.specs.Prelude.{combined, inverse, is_member, taken, magnitude};
ghost use Rattle.model_graph.specs.Graph as op;
ghost use Rattle.std.specs.Prelude.{pos};
ghost use Rattle.lasp_setops.specs.GroupLaws as laws;

use super::group::FoldGroup;

/// Adds the lifts. Every whole number is a member, and its size is the number without its sign.
#[derive(Clone, Copy, Drop)]
pub struct Sum;

impl FoldGroup for Sum {
    ghost is_group = { λ _. Unit {0} };

    ghost is_member = { λ _. is_member op.Sum };

    ghost unit = { λ _. pos 0 };

    ghost combined = { λ _. combined op.Sum };

    ghost undone = { λ _. inverse op.Sum };

    ghost taken = { λ _. taken op.Sum };

    ghost size = { λ _ a. magnitude a };

    fn known(&self) {}

    fn neutral(&self) -> i128 {
        0
    }

    fn op(&self, a: i128, b: i128) -> i128 {
        a + b
    }

    fn inverse(&self, a: i128) -> i128 {
        -a
    }

    fn lift_in(&self, n: i64) -> i128 {
        n as i128
    }

    fn member(&self, _a: i128) -> bool {
        true
    }

    ghost laws = { λ _ _. laws.sums };
}
