//! Why a set takes no update.

ghost use Rattle.std.specs.Prelude.{◌≡◌};
ghost use Rattle.lasp_dots.specs.declared.refused.DotRefused.TheVariants as dot_refused;

use std::alloc::{AllocError, AllocFailed};
use thiserror::Error;

/// Why an update wasn't made. Nothing has changed then.
#[derive(Debug, Drop, Error)]
pub enum DotRefused {
    /// The replica made 100,000 updates already.
    #[error("the replica made 100,000 updates, which is the most")]
    CountFull,
    /// No memory was left.
    #[error("out of memory")]
    Memory,
}

impl From<AllocError> for DotRefused {
    ghost from_gives = { λ _ e. e ≡ dot_refused.Memory };

    fn from(_e: AllocError) -> DotRefused {
        DotRefused::Memory
    }
}

impl<T: Drop> From<AllocFailed<T>> for DotRefused {
    ghost from_gives = { λ _ e. e ≡ dot_refused.Memory };

    fn from(_e: AllocFailed<T>) -> DotRefused {
        DotRefused::Memory
    }
}
