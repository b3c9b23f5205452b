//! Why a read or a write failed.
ghost use Rattle.std.specs.Prelude.{◌≡◌};
ghost use Rattle.lasp_edge.specs.Prelude.{Memory};

use std::alloc::AllocError;
use thiserror::Error;

/// Why a file wasn't read.
#[derive(Clone, Copy, Debug, PartialEq, Eq, Error)]
pub enum Fetch {
    /// Opening or reading it failed, and a fault was counted.
    #[error("the file can't be read")]
    Failed,
    /// It has more bytes than the limit of the call.
    #[error("the file is too long")]
    TooLong,
    /// There was no memory for its bytes.
    #[error("out of memory")]
    Memory,
}

impl From<AllocError> for Fetch {
    ghost from_gives = { λ _ e. e ≡ Memory };

    fn from(_error: AllocError) -> Fetch {
        Fetch::Memory
    }
}

/// A write failed, and a fault was counted.
#[derive(Clone, Copy, Debug, PartialEq, Eq, Error)]
#[error("the output can't be written")]
pub struct Failed;
