//! Why a message isn't sent.

use std::alloc::{AllocError, AllocFailed};
use thiserror::Error;

/// Why a message isn't sent.
#[derive(Clone, Copy, PartialEq, Eq, Debug, Error)]
pub enum SendRefused {
    /// The bytes of all messages would pass the network's limit.
    #[error("the network is full")]
    NetworkFull,
    /// No memory was left.
    #[error("out of memory")]
    Memory,
}

impl From<AllocError> for SendRefused {
    ghost use Rattle.std.specs.Prelude.{◌≡◌};
    ghost use Rattle.lasp_gossip.specs.declared.refused.SendRefused.TheVariants.{Memory};

    ghost from_gives = { λ _ error. error ≡ Memory };

    fn from(_error: AllocError) -> SendRefused {
        SendRefused::Memory
    }
}

impl<T: Drop> From<AllocFailed<T>> for SendRefused {
    ghost use Rattle.std.specs.Prelude.{◌≡◌};
    ghost use Rattle.lasp_gossip.specs.declared.refused.SendRefused.TheVariants.{Memory};

    ghost from_gives = { λ _ error. error ≡ Memory };

    fn from(_error: AllocFailed<T>) -> SendRefused {
        SendRefused::Memory
    }
}
