//! The trait of what folds combine, and its laws.

ghost use Rattle.std.specs.Prelude.{◌≡◌, ℕ, ◌+◌, ◌^◌, ◌≤◌, ℤ, Bool, IsTrue};
ghost use Rattle.lasp_setops.specs.Group.{IsSizedGroup};

/// A commutative group of numbers. Each number has a size, which says how much room its combinations may take.
pub trait FoldGroup {
    // what every value of the type is
    ghost is_group: { Self → Type 0 };

    // the numbers of the group
    ghost is_member: { Self → ℤ → Bool };

    ghost unit: { Self → ℤ };

    ghost combined: { Self → ℤ → ℤ → ℤ };

    ghost undone: { Self → ℤ → ℤ };

    // a lift as the group takes it
    ghost taken: { Self → ℤ → ℤ };

    ghost size: { Self → ℤ → ℕ };

    /// Recalls, at no cost, that this is a group.
    fn known(&self)
        ensures { is_group self.now };

    /// The number that changes nothing.
    fn neutral(&self) -> i128
        ensures { result ≡ unit self.now };

    /// Combines two members.
    fn op(&self, a: i128, b: i128) -> i128
        requires left { IsTrue (is_member self.now a) }
        requires right { IsTrue (is_member self.now b) }
        requires small { size self.now a + size self.now b ≤ 2 ^ 100 }
        ensures { result ≡ combined self.now a b };

    /// What undoes a member.
    fn inverse(&self, a: i128) -> i128
        requires in_group { IsTrue (is_member self.now a) }
        requires small { size self.now a ≤ 2 ^ 100 }
        ensures { result ≡ undone self.now a };

    /// A number that a value brings, as the group takes it.
    fn lift_in(&self, n: i64) -> i128
        ensures { result ≡ taken self.now n };

    /// Whether the number is one of the group.
    fn member(&self, a: i128) -> bool
        ensures { result ≡ is_member self.now a };

    // members are a commutative group with lifts in it, and sizes grow by combining alone
    ghost laws: { (s : Self) → is_group s → IsSizedGroup (is_member s) (combined s) (unit s) (undone s) (taken s) (size s) };
}
