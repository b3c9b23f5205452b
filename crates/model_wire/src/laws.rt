//! The laws of messages as bytes. Each is the contract of a function that does nothing.

ghost use Rattle.std.specs.Prelude.{◌≡◌, ℕ, ◌≤◌, ◌++◌, [], true, List, length, Ok, Err};
ghost use Rattle.model_graph.specs.Message.{Message};
ghost use Rattle.model_graph.specs.Spelling.{spelled};
ghost use Rattle.model_wire.specs.declared.wire_why.WireWhy.{WireWhy};
ghost use Rattle.model_wire.specs.Message.{is_version, read_message, decoded};
ghost use Rattle.model_wire.specs.Spelling.{spelled_in};
ghost use Rattle.model_wire.specs.Lawful.{IsBytes, IsMessage, IsSpelledSo};

/// What is read from bytes is a message whose parts are in their ranges, and the bytes are its spelling in one of the two versions; and such a spelling of such a message is read as this message.
pub fn messages_are_read_as_they_are_spelled()
    ensures read { (bytes : List ℕ) (m : Message) → IsBytes bytes → decoded bytes ≡ Ok m → IsMessage m × IsSpelledSo m bytes }
    ensures again { (version : ℕ) (m : Message) → is_version version ≡ true → IsMessage m → decoded (spelled_in version m) ≡ Ok m }
{}

/// The spelling that is written is the one of version 2.
#[tactic(auto, using(crate::proofs::MessageLaws::written))]
pub fn messages_are_written_in_version_2()
    ensures { (m : Message) → spelled_in 2 m ≡ spelled m }
{}

/// No spelling begins another, in whichever versions they are.
#[tactic(auto, using(crate::proofs::MessageLaws::no_prefix))]
pub fn no_spelling_begins_another()
    ensures { (v w : ℕ) (m n : Message) (more : List ℕ) → is_version v ≡ true → is_version w ≡ true → IsMessage m → IsMessage n → spelled_in v m ++ more ≡ spelled_in w n → more ≡ [] }
{}

/// A refusal names a place among the bytes, or their end: what is left from there on is no more than there was.
#[tactic(auto, using(crate::proofs::Within::places_within, crate::proofs::Within::refused_within))]
pub fn refusals_stand_within_the_bytes()
    ensures place { (bytes : List ℕ) (place : ℕ) (why : WireWhy) → decoded bytes ≡ Err (place, why) → place ≤ length bytes }
    ensures left { (bytes : List ℕ) (refusal : ℕ × WireWhy) → read_message bytes ≡ Err refusal → refusal.0 ≤ length bytes }
{}
