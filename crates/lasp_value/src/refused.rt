//! Why a tree of JSON stands for no value.

ghost use Rattle.std.specs.Prelude.{◌≡◌};
ghost use Rattle.lasp_value.specs.declared.refused.ValueRefused.TheVariants as value_refused;
ghost use Rattle.lasp_value.specs.Json.{refusal_of};

use model_values::ValueWhy;
use std::alloc::{AllocError, AllocFailed};
use thiserror::Error;

/// Why no value is read from a tree.
#[derive(Debug, Drop, Error)]
pub enum ValueRefused {
    /// The first part that stands for no value is a null, a truth value, an object, or an array of other than two parts.
    #[error("not a value")]
    NotAValue,
    /// The first part that stands for no value is a number that isn't a whole one of 64 bits with a sign.
    #[error("a number past 64 bits, or no whole one")]
    NumberRefused,
    /// It stands for a value of more than 8 numbers and texts, or of more than 256 bytes of text.
    #[error("a value of more than 8 numbers and texts, or of more than 256 bytes of text")]
    TooBig,
    /// No memory was left.
    #[error("out of memory")]
    Memory,
}

impl From<ValueWhy> for ValueRefused {
    ghost from_gives = { λ why e. e ≡ refusal_of why };

    fn from(why: ValueWhy) -> ValueRefused {
        match why {
            ValueWhy::NotAValue => ValueRefused::NotAValue,
            ValueWhy::NumberRefused => ValueRefused::NumberRefused,
            ValueWhy::TooBig => ValueRefused::TooBig,
        }
    }
}

impl From<AllocError> for ValueRefused {
    ghost from_gives = { λ _ e. e ≡ value_refused.Memory };

    fn from(_e: AllocError) -> ValueRefused {
        ValueRefused::Memory
    }
}

impl<T: Drop> From<AllocFailed<T>> for ValueRefused {
    ghost from_gives = { λ _ e. e ≡ value_refused.Memory };

    fn from(_e: AllocFailed<T>) -> ValueRefused {
        ValueRefused::Memory
    }
}
