//! The laws of bytes that begin others. Each is the contract of a function that does nothing.

ghost use Rattle.std.specs.Prelude.{◌≡◌, ◌≢◌, ℕ, ◌++◌, [], true, List, Err};
ghost use Rattle.model_graph.specs.Message.{Message};
ghost use Rattle.model_wire.specs.declared.wire_why.WireWhy.{WireWhy};
ghost use Rattle.model_wire.specs.declared.wire_why.WireWhy.TheVariants.{Short, Rest};
ghost use Rattle.model_wire.specs.Message.{is_version, decoded};
ghost use Rattle.model_wire.specs.Spelling.{spelled_in};
ghost use Rattle.model_wire.specs.Lawful.{IsBytes, IsMessage};
ghost use Rattle.model_wire.specs.Prefix.{HasMessageBefore};

/// Once bytes are refused for another cause than that they end too early, no further bytes change the place or the cause.
#[tactic(auto, using(crate::proofs::PrefixLaws::refusal_stays))]
pub fn refusals_stay_whatever_follows()
    ensures { (bytes more : List ℕ) (place : ℕ) (why : WireWhy) → decoded bytes ≡ Err (place, why) → why ≢ Short → decoded (bytes ++ more) ≡ Err (place, why) }
{}

/// Such bytes begin no spelling of a message.
#[tactic(auto, using(crate::proofs::PrefixLaws::begins_none))]
pub fn no_message_begins_with_refused_bytes()
    ensures { (bytes more : List ℕ) (place : ℕ) (why : WireWhy) (version : ℕ) (m : Message) → decoded bytes ≡ Err (place, why) → why ≢ Short → is_version version ≡ true → IsMessage m → spelled_in version m ≢ bytes ++ more }
{}

/// Bytes are refused for what follows the last field exactly where a message's spelling begins them, and the place is its end.
pub fn rest_stands_behind_a_message()
    ensures before { (bytes : List ℕ) (place : ℕ) → IsBytes bytes → decoded bytes ≡ Err (place, Rest) → HasMessageBefore bytes place }
    ensures refused { (bytes : List ℕ) (place : ℕ) → HasMessageBefore bytes place → decoded bytes ≡ Err (place, Rest) }
{}

/// Bytes that only begin a message's spelling are refused since they end too early.
#[tactic(auto, using(crate::proofs::PrefixLaws::beginning_short))]
pub fn beginnings_of_messages_are_short()
    ensures { (bytes more : List ℕ) (version : ℕ) (m : Message) → bytes ++ more ≡ spelled_in version m → more ≢ [] → is_version version ≡ true → IsMessage m → (place : ℕ) × (decoded bytes ≡ Err (place, Short)) }
{}
