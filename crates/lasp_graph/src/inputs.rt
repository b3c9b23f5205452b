//! What processes read, and how evaluation is refused.

ghost use Rattle.std.specs.Prelude.{◌≡◌};
ghost use Rattle.lasp_graph.specs.Prelude.{stopped_at};
ghost use Rattle.lasp_graph.specs.declared.inputs.EvalRefused.TheVariants as eval_refused;
ghost use Rattle.lasp_graph.specs.declared.inputs.EvalAll.TheVariants as eval_all;

use lasp_state::State;
use std::alloc::{AllocError, AllocFailed};
use std::sync::Arc;
use thiserror::Error;

/// What a process reads: one state, or two.
#[derive(Drop)]
pub struct Inputs {
    /// The state of the first input.
    pub first: Arc<State>,
    /// The state of the second input, where the process has two.
    pub second: Option<Arc<State>>,
}

/// Why a process has no state on its inputs.
#[derive(Debug, Drop, Error)]
pub enum EvalRefused {
    /// It would have more than 65,536 rows.
    #[error("too many rows")]
    TooManyRows,
    /// No memory was left.
    #[error("out of memory")]
    Memory,
}

/// Why a graph isn't evaluated.
#[derive(Debug, Drop, Error)]
pub enum EvalAll {
    /// This variable is the least that would have more than 65,536 rows.
    #[error("variable {0} has too many rows")]
    TooLarge(u8),
    /// No memory was left.
    #[error("out of memory")]
    Memory,
}

impl From<AllocError> for EvalRefused {
    ghost from_gives = { λ _ e. e ≡ eval_refused.Memory };

    fn from(_e: AllocError) -> EvalRefused {
        EvalRefused::Memory
    }
}

impl<T: Drop> From<AllocFailed<T>> for EvalRefused {
    ghost from_gives = { λ _ e. e ≡ eval_refused.Memory };

    fn from(_e: AllocFailed<T>) -> EvalRefused {
        EvalRefused::Memory
    }
}

impl From<AllocError> for EvalAll {
    ghost from_gives = { λ _ e. e ≡ eval_all.Memory };

    fn from(_e: AllocError) -> EvalAll {
        EvalAll::Memory
    }
}

impl EvalRefused {
    /// The refusal of the graph whose variable with this number it is.
    pub fn at(self, var: u8) -> EvalAll
        ensures { result ≡ stopped_at var self }
    {
        match self {
            EvalRefused::TooManyRows => EvalAll::TooLarge(var),
            EvalRefused::Memory => EvalAll::Memory,
        }
    }
}
