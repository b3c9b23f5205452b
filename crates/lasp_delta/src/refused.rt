//! Why a delta wasn't applied.

use std::alloc::AllocError;
use thiserror::Error;

/// Why a delta wasn't applied to a message, which is as it was.
#[derive(Clone, Copy, PartialEq, Eq, Debug, Error)]
pub enum DeltaRefused {
    /// The message counts fewer updates of this replica than the delta goes on from; it is the least replica of which that is so. A delta from an earlier message of the sender closes the gap, or the whole message.
    #[error("replica {replica}: {have} updates are known, and the changes go on from {from}")]
    Gap {
        /// The replica.
        replica: u8,
        /// How many of its updates the message counts.
        have: u64,
        /// From how many the delta goes on.
        from: u64,
    },
    /// The source at this place would have more than 65,536 rows or elements; it is the least that would.
    #[error("source {0} would have more than 65,536 rows or elements")]
    TooManyRows(u8),
    /// No memory was left.
    #[error("out of memory")]
    Memory,
}

impl From<AllocError> for DeltaRefused {
    ghost use Rattle.std.specs.Prelude.{◌≡◌};
    ghost use Rattle.lasp_delta.specs.declared.refused.DeltaRefused.TheVariants.{Memory};

    ghost from_gives = { λ _ error. error ≡ Memory };

    fn from(_error: AllocError) -> DeltaRefused {
        DeltaRefused::Memory
    }
}
