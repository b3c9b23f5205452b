//! How reading is refused.

ghost use Rattle.std.specs.Prelude.{◌≡◌};
ghost use Rattle.lasp_script.specs.declared.refused.CommandRefused.TheVariants as command_refused;
ghost use Rattle.lasp_script.specs.declared.refused.ScriptRefused.TheVariants as script_refused;
ghost use Rattle.lasp_script.specs.Answers.{refused_at};

use model_scripts::ScriptWhy;
use std::alloc::{AllocError, AllocFailed};
use thiserror::Error;

/// Why one command isn't read.
#[derive(Debug, Drop, Error)]
pub(crate) enum CommandRefused {
    /// It is none that the script may have there.
    #[error("{0:?}")]
    Because(ScriptWhy),
    /// No memory was left.
    #[error("out of memory")]
    Memory,
}

/// Why a script isn't read.
#[derive(Debug, Drop, Error)]
pub enum ScriptRefused {
    /// The command with this number is refused. Number 0 is the command that tells the nodes, and the whole.
    #[error("script {number} {why:?}")]
    At { number: u32, why: ScriptWhy },
    /// No memory was left.
    #[error("out of memory")]
    Memory,
}

impl CommandRefused {
    /// The refusal of the script whose command with this number it is.
    pub fn at(self, number: u32) -> ScriptRefused
        ensures { result ≡ refused_at number self }
    {
        match self {
            CommandRefused::Because(why) => ScriptRefused::At { number, why },
            CommandRefused::Memory => ScriptRefused::Memory,
        }
    }
}

impl From<ScriptWhy> for CommandRefused {
    ghost from_gives = { λ why e. e ≡ command_refused.Because why };

    fn from(why: ScriptWhy) -> CommandRefused {
        CommandRefused::Because(why)
    }
}

impl From<AllocError> for CommandRefused {
    ghost from_gives = { λ _ e. e ≡ command_refused.Memory };

    fn from(_e: AllocError) -> CommandRefused {
        CommandRefused::Memory
    }
}

impl From<AllocError> for ScriptRefused {
    ghost from_gives = { λ _ e. e ≡ script_refused.Memory };

    fn from(_e: AllocError) -> ScriptRefused {
        ScriptRefused::Memory
    }
}

impl<T: Drop> From<AllocFailed<T>> for ScriptRefused {
    ghost from_gives = { λ _ e. e ≡ script_refused.Memory };

    fn from(_e: AllocFailed<T>) -> ScriptRefused {
        ScriptRefused::Memory
    }
}
