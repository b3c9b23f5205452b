//! Why a replica didn't do what it was told.

use std::alloc::{AllocError, AllocFailed};
use thiserror::Error;

/// Why an update wasn't done. The replica is as it was.
#[derive(Clone, Copy, PartialEq, Eq, Debug, Error)]
pub enum UpdateRefused {
    /// No variable has this number.
    #[error("there is no such variable")]
    UnknownVar,
    /// The variable is derived.
    #[error("the variable is no source")]
    NotASource,
    /// The operation is of another kind than the variable.
    #[error("the operation isn't one of the variable")]
    WrongOp,
    /// The replica has done 100,000 updates.
    #[error("the replica has done all its updates")]
    UpdatesFull,
    /// The variable would have more than 65,536 rows or elements.
    #[error("the variable has too many rows")]
    TooManyRows,
    /// No memory was left.
    #[error("out of memory")]
    Memory,
}

/// Why a message wasn't joined in. The replica is as it was.
#[derive(Clone, Copy, PartialEq, Eq, Debug, Error)]
pub enum DeliverRefused {
    /// It has the counts of another number of nodes, or its sources aren't the first of the graph's.
    #[error("the message is of another graph")]
    WrongGraph,
    /// This variable is the first that would have more than 65,536 rows or elements.
    #[error("variable {0} has too many rows")]
    TooManyRows(u8),
    /// No memory was left.
    #[error("out of memory")]
    Memory,
}

/// The least derived variable that has not taken in its inputs as they are, and the first of its inputs that it lacks.
#[derive(Clone, Copy, PartialEq, Eq, Debug, Error)]
#[error("variable {var} has taken in version {applied} of variable {input}, which is at {present}")]
pub struct NotYet {
    /// The variable.
    pub var: u8,
    /// The input.
    pub input: u8,
    /// How often the input had grown when the variable last read it.
    pub applied: u64,
    /// How often the input has grown by now.
    pub present: u64,
}

impl From<AllocError> for UpdateRefused {
    ghost use Rattle.std.specs.Prelude.{◌≡◌};
    ghost use Rattle.lasp_replica.specs.declared.refused.UpdateRefused.TheVariants.{Memory};

    ghost from_gives = { λ _ refused. refused ≡ Memory };

    fn from(_error: AllocError) -> UpdateRefused {
        UpdateRefused::Memory
    }
}

impl<T: Drop> From<AllocFailed<T>> for UpdateRefused {
    ghost use Rattle.std.specs.Prelude.{◌≡◌};
    ghost use Rattle.lasp_replica.specs.declared.refused.UpdateRefused.TheVariants.{Memory};

    ghost from_gives = { λ _ refused. refused ≡ Memory };

    fn from(_error: AllocFailed<T>) -> UpdateRefused {
        UpdateRefused::Memory
    }
}

impl From<AllocError> for DeliverRefused {
    ghost use Rattle.std.specs.Prelude.{◌≡◌};
    ghost use Rattle.lasp_replica.specs.declared.refused.DeliverRefused.TheVariants.{Memory};

    ghost from_gives = { λ _ refused. refused ≡ Memory };

    fn from(_error: AllocError) -> DeliverRefused {
        DeliverRefused::Memory
    }
}

impl<T: Drop> From<AllocFailed<T>> for DeliverRefused {
    ghost use Rattle.std.specs.Prelude.{◌≡◌};
    ghost use Rattle.lasp_replica.specs.declared.refused.DeliverRefused.TheVariants.{Memory};

    ghost from_gives = { λ _ refused. refused ≡ Memory };

    fn from(_error: AllocFailed<T>) -> DeliverRefused {
        DeliverRefused::Memory
    }
}
