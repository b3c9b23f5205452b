//! The laws of deltas as bytes.

ghost use Rattle.std.specs.Prelude.{◌≡◌, ℕ, ◌≤◌, ◌++◌, [], List, length, Ok, Err};
ghost use Rattle.model_wire.specs.declared.wire_why.WireWhy.{WireWhy};
ghost use Rattle.model_wire.specs.Lawful.{IsBytes};
ghost use Rattle.model_deltas.specs.Delta.{Delta};
ghost use Rattle.model_deltas.specs.Before.{IsDelta};
ghost use Rattle.model_deltas.specs.Spelling.{spelled_delta};
ghost use Rattle.model_deltas.specs.Reader.{read_delta, decoded_delta};

/// What is read from bytes is a delta whose parts are in their ranges, and the bytes are its spelling; and the spelling of such a delta is read as this delta.
pub fn deltas_are_read_as_they_are_spelled()
    ensures read { (bytes : List ℕ) (d : Delta) → IsBytes bytes → decoded_delta bytes ≡ Ok d → IsDelta d × (bytes ≡ spelled_delta d) }
    ensures again { (d : Delta) → IsDelta d → decoded_delta (spelled_delta d) ≡ Ok d }
{}

/// No spelling of a delta begins another.
#[tactic(auto, using(crate::proofs::CodecLaws::no_prefix))]
pub fn no_delta_begins_another()
    ensures { (d e : Delta) (more : List ℕ) → IsDelta d → IsDelta e → spelled_delta d ++ more ≡ spelled_delta e → more ≡ [] }
{}

/// A refusal names a place among the bytes, or their end: what is left from there on is no more than there was.
#[tactic(auto, using(crate::proofs::PlaceLaws::places_within, crate::proofs::PlaceLaws::refused_within))]
pub fn refusals_of_deltas_stand_within_the_bytes()
    ensures place { (bytes : List ℕ) (place : ℕ) (why : WireWhy) → decoded_delta bytes ≡ Err (place, why) → place ≤ length bytes }
    ensures left { (bytes : List ℕ) (refusal : ℕ × WireWhy) → read_delta bytes ≡ Err refusal → refusal.0 ≤ length bytes }
{}
