//! The law of bytes that are no message. It is the contract of a function that does nothing.

ghost use Rattle.std.specs.Prelude.{◌≡◌, ℕ, List, Err};
ghost use Rattle.model_wire.specs.declared.wire_why.WireWhy.{WireWhy};
ghost use Rattle.model_wire.specs.Message.{decoded};
ghost use Rattle.model_wire.specs.Lawful.{IsBytes};
ghost use Rattle.model_wire.specs.Stuck.{IsStuck};

/// Bytes are refused at a place for a cause exactly where whole lawful fields, in order, stand before the place, and what stands there fails for this cause. So there is no second such place or cause.
pub fn bytes_are_refused_where_they_are_stuck()
    ensures refused { (bytes : List ℕ) (place : ℕ) (why : WireWhy) → IsStuck bytes place why → decoded bytes ≡ Err (place, why) }
    ensures stuck { (bytes : List ℕ) (place : ℕ) (why : WireWhy) → IsBytes bytes → decoded bytes ≡ Err (place, why) → IsStuck bytes place why }
{}
