//! What the bytes of a message say: the message, or the first field that can't be read, with the place where it begins; and what the first bytes decide, whatever follows them. Definitions and laws.
#![tactic(auto)]

mod laws;
mod prefixes;
mod stuck;
mod wire_why;

pub use laws::{
    messages_are_read_as_they_are_spelled, messages_are_written_in_version_2,
    no_spelling_begins_another, refusals_stand_within_the_bytes,
};
pub use prefixes::{
    beginnings_of_messages_are_short, no_message_begins_with_refused_bytes,
    refusals_stay_whatever_follows, rest_stands_behind_a_message,
};
pub use stuck::bytes_are_refused_where_they_are_stuck;
pub use wire_why::WireWhy;
