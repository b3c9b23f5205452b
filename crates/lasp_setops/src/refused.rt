//! Why a process answers no set.

ghost use Rattle.std.specs.Prelude.{◌≡◌};

use std::alloc::AllocError;
use thiserror::Error;

/// Why a process answers no set.
#[derive(Debug, Drop, Error)]
pub enum SetRefused {
    /// The result would have more than 65,536 rows.
    #[error("the result would have more than 65,536 rows")]
    TooManyRows,
    /// No memory was found.
    #[error("out of memory")]
    Memory,
}

impl From<AllocError> for SetRefused {
    ghost use Rattle.lasp_setops.specs.declared.refused.SetRefused.TheVariants as refused;

    ghost from_gives = { λ _ r. r ≡ refused.Memory };

    fn from(_error: AllocError) -> SetRefused {
        SetRefused::Memory
    }
}
