//! What changed between two messages of one sender: the delta from one to the other, what it makes of a third message or why it can't be applied, and its bytes; and runs whose messages travel so, which changes nothing of them. Definitions and laws.
#![tactic(auto)]

mod applied;
mod bytes;
mod changes;
mod runs;
mod stuck;
mod worlds;

pub use applied::{applied_messages_are_messages, causes_of_refusals};
pub use bytes::{
    deltas_are_read_as_they_are_spelled, no_delta_begins_another,
    refusals_of_deltas_stand_within_the_bytes,
};
pub use changes::{changes_make_up_the_difference, deltas_are_within_the_format};
pub use runs::{
    deliveries_by_deltas_bring_the_message, deltas_change_nothing_of_a_run,
    messages_travel_as_deltas,
};
pub use stuck::{
    bytes_are_no_delta_where_they_are_stuck, parts_are_refused_for_causes_of_their_own,
};
pub use worlds::{deltas_stand_for_their_messages, messages_of_a_world_go_together};
