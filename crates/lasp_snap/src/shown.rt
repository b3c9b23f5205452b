//! What a shelf shows its readers.

ghost use Rattle.std.specs.Prelude.{◌≡◌, IfOk};

use super::front::Front;
use super::version::Version;
use left_right::Absorb;
use std::alloc::AllocError;

/// The version that was published last, how many were, and the log up to where it was offered. A push puts another one in its place, so that nothing of a refused one is left behind the next.
#[derive(Drop)]
pub struct Shown {
    /// The version.
    pub version: Version,
    /// The number of versions that were published.
    pub published: u64,
    /// The log, which ends with the version's offer.
    pub front: Front,
}

impl Shown {
    /// The same, at the cost of one count.
    pub fn again(&self) -> Result<Shown, AllocError>
        ensures { IfOk result (λ s. s ≡ self.now) }
    {
        Ok(Shown {
            version: self.version.again()?,
            published: self.published,
            front: self.front.again(),
        })
    }
}

impl Absorb<Shown> for Shown {
    type State = Shown;

    ghost state = { λ s. s };

    ghost applied = { λ _ next. next };

    fn absorb_first(&mut self, operation: &Shown, _other: &Shown) -> Result<(), AllocError> {
        *self = operation.again()?;
        Ok(())
    }
}
