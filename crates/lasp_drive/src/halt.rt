//! Why a run ended before the script did.

use std::alloc::{AllocError, AllocFailed};
use thiserror::Error;

/// Why a run ended early. The first number is always the command's.
#[derive(Clone, Copy, PartialEq, Eq, Debug, Error)]
pub enum Halt {
    /// At this command a variable passes 65,536 rows or elements: command, node, variable.
    #[error("command {0}: at node {1} variable {2} has too many rows")]
    TooLarge(u32, u8, u8),
    /// At this command the bytes of all messages pass 268,435,456.
    #[error("command {0}: the messages have too many bytes")]
    NetworkFull(u32),
    /// At this command a node isn't at the threshold that it has to reach.
    #[error("command {0}: a threshold isn't reached")]
    NotReached(u32),
    /// No memory was left.
    #[error("out of memory")]
    Memory,
}

impl From<AllocError> for Halt {
    ghost use Rattle.std.specs.Prelude.{◌≡◌};
    ghost use Rattle.lasp_drive.specs.declared.halt.Halt.TheVariants.{Memory};

    ghost from_gives = { λ _ halt. halt ≡ Memory };

    fn from(_error: AllocError) -> Halt {
        Halt::Memory
    }
}

impl<T: Drop> From<AllocFailed<T>> for Halt {
    ghost use Rattle.std.specs.Prelude.{◌≡◌};
    ghost use Rattle.lasp_drive.specs.declared.halt.Halt.TheVariants.{Memory};

    ghost from_gives = { λ _ halt. halt ≡ Memory };

    fn from(_error: AllocFailed<T>) -> Halt {
        Halt::Memory
    }
}
