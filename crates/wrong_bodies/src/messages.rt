//! Reading messages.

ghost use Rattle.std.specs.Prelude.{◌≡◌, IfOk};
ghost use Rattle.model_wire.specs.Lawful.{IsMessage, IsSpelledSo};
ghost use Rattle.model_wire.specs.Message.{decoded};
ghost use Rattle.lasp_wire.specs.Decoded.{Tells};

use lasp_wire::{Message, WireRefused, decode};
use std::alloc::Global;

/// `lasp_wire::decode`.
pub fn message_of(alloc: Global, bytes: &[u8]) -> Result<Message, WireRefused>
    ensures exact { Tells (λ m. m) result (decoded bytes.now) }
    ensures read { IfOk result (λ m. IsMessage m × IsSpelledSo m bytes.now) }
{
    decode(alloc, bytes)
}
