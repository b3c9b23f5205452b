//! Values of which there may be several at the price of a count.

ghost use Rattle.std.specs.Prelude.{◌≡◌, IfOk};

use std::alloc::AllocError;

/// A value that can be shared: an equal one takes no memory, or next to none.
pub trait Share: Drop {
    /// An equal value. It fails only where there are too many shares to be counted.
    fn share(&self) -> Result<Self, AllocError>
        ensures { IfOk result (λ x. x ≡ self.now) };
}
