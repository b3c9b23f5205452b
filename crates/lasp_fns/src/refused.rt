//! Why a library takes no function.

ghost use Rattle.std.specs.Prelude.{◌≡◌};

use std::alloc::{AllocError, AllocFailed};
use thiserror::Error;

/// Why a library takes no function.
#[derive(Debug, Drop, Error)]
pub enum LibraryRefused {
    /// Another function of the kind has the name.
    #[error("another function has this name")]
    NameTaken,
    /// The name isn't one to 32 small letters, digits and `_` that begin with a letter.
    #[error("a function's name has small letters, digits and `_`, at most 32, and begins with a letter")]
    NameShape,
    /// No memory was found.
    #[error("out of memory")]
    Memory,
}

impl From<AllocError> for LibraryRefused {
    ghost use Rattle.lasp_fns.specs.declared.refused.LibraryRefused.TheVariants as refused;

    ghost from_gives = { λ _ r. r ≡ refused.Memory };

    fn from(_error: AllocError) -> LibraryRefused {
        LibraryRefused::Memory
    }
}

impl<T: Drop> From<AllocFailed<T>> for LibraryRefused {
    ghost use Rattle.lasp_fns.specs.declared.refused.LibraryRefused.TheVariants as refused;

    ghost from_gives = { λ _ r. r ≡ refused.Memory };

    fn from(_error: AllocFailed<T>) -> LibraryRefused {
        LibraryRefused::Memory
    }
}
