//! Remainders under their sum.

ghost use Rattle.lasp_setops.specs.Prelude.{combined, inverse, is_member, taken};
ghost use Rattle.model_graph.specs.Graph as op;
ghost use Rattle.std.specs.Prelude.{◌≡◌, ◌≤◌, ◌^◌, pos};
ghost use Rattle.lasp_setops.specs.GroupLaws as laws;

use super::group::FoldGroup;
use std::marker::Model;

/// Adds the lifts and keeps the remainder by a number, which is at least 1. The members are the numbers from 0 on that are less, of size 0.
#[derive(Drop)]
pub struct Modulo {
    n: u32,
}

impl Model for Modulo {
    ghost use Rattle.std.specs.Prelude.{ℕ, ◌≤◌};

    ghost Value = { ℕ };

    ghost view = { λ m. m.n };

    ghost invariant = { λ m. 1 ≤ m.n };
}

impl Modulo {
    /// The remainders by `n`.
    pub fn new(n: u32) -> Modulo
        requires { 1 ≤ n }
        ensures { result ≡ n }
    {
        Modulo { n }
    }

    fn modulus(&self) -> i128
        ensures exact { result ≡ pos self.now }
        ensures some { 1 ≤ self.now }
        ensures small { self.now ≤ 2 ^ 32 }
    {
        self.n as i128
    }
}

impl FoldGroup for Modulo {
    ghost is_group = { λ m. 1 ≤ m };

    ghost is_member = { λ m. is_member (op.Modulo m) };

    ghost unit = { λ _. pos 0 };

    ghost combined = { λ m. combined (op.Modulo m) };

    ghost undone = { λ m. inverse (op.Modulo m) };

    ghost taken = { λ m. taken (op.Modulo m) };

    ghost size = { λ _ _. 0 };

    fn known(&self) {
        self.modulus();
    }

    fn neutral(&self) -> i128 {
        0
    }

    fn op(&self, a: i128, b: i128) -> i128 {
        let modulus = self.modulus();
        (a + b).rem_euclid(modulus)
    }

    fn inverse(&self, a: i128) -> i128 {
        (-a).rem_euclid(self.modulus())
    }

    fn lift_in(&self, n: i64) -> i128 {
        (n as i128).rem_euclid(self.modulus())
    }

    fn member(&self, a: i128) -> bool {
        0 <= a && a < self.modulus()
    }

    ghost laws = { λ m some. laws.remainders m some };
}
