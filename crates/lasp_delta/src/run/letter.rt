//! A delta on its way: its bytes.

ghost use Rattle.std.specs.Prelude.{◌≡◌, IfOk, length};
ghost use Rattle.model_deltas.specs.Spelling.{spelled_delta};

use crate::{Delta, decode_delta, encode_delta};
use std::alloc::{AllocError, Global};
use std::marker::Model;

/// The bytes of a delta. It is seen as the delta that they are.
#[derive(Drop)]
pub struct Letter {
    bytes: Vec<u8>,
}

impl Model for Letter {
    ghost use Rattle.std.specs.Prelude.{◌≡◌};
    ghost use Rattle.model_deltas.specs.Delta as plain;
    ghost use Rattle.model_deltas.specs.Before.{IsDelta};
    ghost use Rattle.model_deltas.specs.Spelling.{spelled_delta};
    ghost use Rattle.lasp_delta.specs.Delta.{coded_delta};
    ghost use Rattle.lasp_delta.specs.Letter.{delta_in};

    ghost Value = { plain.Delta };

    ghost coded = { coded_delta };

    ghost view = { λ a. delta_in a.bytes.items };

    ghost invariant = { λ a. IsDelta (delta_in a.bytes.items) × (a.bytes.items ≡ spelled_delta (delta_in a.bytes.items)) };
}

impl Letter {
    /// A delta as its bytes.
    pub fn of(alloc: Global, delta: &Delta) -> Result<Letter, AllocError>
        ensures { IfOk result (λ letter. letter ≡ delta.now) }
    {
        delta.recall();
        let bytes = encode_delta(alloc, delta)?;
        Ok(Letter { bytes })
    }

    /// The delta that the bytes are. They always are one, so it is refused for want of memory alone.
    pub fn open(&self, alloc: Global) -> Result<Delta, AllocError>
        ensures { IfOk result (λ delta. delta ≡ self.now) }
    {
        match decode_delta(alloc, self.bytes.as_slice()) {
            Ok(delta) => Ok(delta),
            Err(_) => Err(AllocError),
        }
    }

    /// How many bytes it has.
    pub fn len(&self) -> u64
        ensures { result ≡ length (spelled_delta self.now) }
    {
        self.bytes.len() as u64
    }
}
