//! Why bytes are no message.

use model_wire::WireWhy;
use std::alloc::{AllocError, AllocFailed};
use thiserror::Error;

/// Why no message was read.
#[derive(Clone, Copy, PartialEq, Eq, Debug, Error)]
pub enum WireRefused {
    /// The first field that can't be read begins at this place, counted in bytes from 0.
    #[error("at byte {place}: {why:?}")]
    At {
        /// The place of the field's first byte.
        place: u64,
        /// Why it can't be read.
        why: WireWhy,
    },
    /// No memory was left.
    #[error("out of memory")]
    Memory,
}

impl From<AllocError> for WireRefused {
    ghost use Rattle.std.specs.Prelude.{◌≡◌};
    ghost use Rattle.lasp_wire.specs.declared.refused.WireRefused.TheVariants.{Memory};

    ghost from_gives = { λ _ error. error ≡ Memory };

    fn from(_error: AllocError) -> WireRefused {
        WireRefused::Memory
    }
}

impl<T: Drop> From<AllocFailed<T>> for WireRefused {
    ghost use Rattle.std.specs.Prelude.{◌≡◌};
    ghost use Rattle.lasp_wire.specs.declared.refused.WireRefused.TheVariants.{Memory};

    ghost from_gives = { λ _ error. error ≡ Memory };

    fn from(_error: AllocFailed<T>) -> WireRefused {
        WireRefused::Memory
    }
}

/// Why a field wasn't read.
#[derive(Clone, Copy, PartialEq, Eq, Debug)]
pub enum ReadError {
    /// So many bytes stand from the field on, and it can't be read for this reason.
    At(usize, WireWhy),
    /// No memory was left.
    Memory,
}

impl From<AllocError> for ReadError {
    ghost use Rattle.std.specs.Prelude.{◌≡◌};
    ghost use Rattle.lasp_wire.specs.declared.refused.ReadError.TheVariants.{Memory};

    ghost from_gives = { λ _ error. error ≡ Memory };

    fn from(_error: AllocError) -> ReadError {
        ReadError::Memory
    }
}

impl<T: Drop> From<AllocFailed<T>> for ReadError {
    ghost use Rattle.std.specs.Prelude.{◌≡◌};
    ghost use Rattle.lasp_wire.specs.declared.refused.ReadError.TheVariants.{Memory};

    ghost from_gives = { λ _ error. error ≡ Memory };

    fn from(_error: AllocFailed<T>) -> ReadError {
        ReadError::Memory
    }
}
