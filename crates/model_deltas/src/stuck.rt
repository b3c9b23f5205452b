//! The laws of bytes that are no delta.

ghost use Rattle.std.specs.Prelude.{◌≡◌, ℕ, List, Err};
ghost use Rattle.std.specs.Int.{w64};
ghost use Rattle.model_wire.specs.declared.wire_why.WireWhy.{WireWhy};
ghost use Rattle.model_wire.specs.Lawful.{IsBytes};
ghost use Rattle.model_wire.specs.Reader.{ranged_at};
ghost use Rattle.model_wire.specs.Message.{update_limit, nodes_at, sources_at};
ghost use Rattle.model_deltas.specs.Reader.{decoded_delta};
ghost use Rattle.model_deltas.specs.Stuck.{IsStuckDelta};
ghost use Rattle.model_deltas.specs.Causes.{IsOfPart};

/// Bytes are refused at a place for a cause exactly where whole lawful fields, in order, stand before the place, and what stands there fails for this cause. So there is no second such place or cause.
pub fn bytes_are_no_delta_where_they_are_stuck()
    ensures refused { (bytes : List ℕ) (place : ℕ) (why : WireWhy) → IsStuckDelta bytes place why → decoded_delta bytes ≡ Err (place, why) }
    ensures stuck { (bytes : List ℕ) (place : ℕ) (why : WireWhy) → IsBytes bytes → decoded_delta bytes ≡ Err (place, why) → IsStuckDelta bytes place why }
{}

/// The parts that a delta shares with a message are refused for causes of their own: neither for another beginning nor for what follows. So it is of the number of nodes, of a count, and of the sources in either version.
#[tactic(auto, using(crate::proofs::CauseLaws::causes))]
pub fn parts_are_refused_for_causes_of_their_own()
    ensures nodes { (bytes : List ℕ) (left : ℕ) (why : WireWhy) → nodes_at bytes ≡ Err (left, why) → IsOfPart why }
    ensures count { (bytes : List ℕ) (left : ℕ) (why : WireWhy) → ranged_at w64 0 update_limit bytes ≡ Err (left, why) → IsOfPart why }
    ensures sources { (version nodes : ℕ) (bytes : List ℕ) (left : ℕ) (why : WireWhy) → sources_at version nodes bytes ≡ Err (left, why) → IsOfPart why }
{}
