//! Sets without tombstones: their states, what an add, a remove and a join make of them, and their laws; and what the replicas of a run know without tombstones: their live rows and counts stand for all that they know. There is nothing to run here: each function's contract is a group of laws.
#![tactic(auto)]

mod agreement;
mod counted;
mod loops;
mod report;
mod sizes;
mod stands;
mod states;
mod unlimited;
mod words;

pub use agreement::replicas_without_tombstones_stand_for_those_with_them;
pub use counted::what_is_counted_and_absent_was_removed;
pub use loops::loops_compute_the_definitions;
pub use report::reports_need_no_tombstones;
pub use sizes::no_more_updates_are_counted_than_were_made;
pub use stands::live_rows_and_counts_stand_for_all_rows;
pub use states::{
    states_are_a_lattice, states_are_told_by_marks, updates_lead_to_states, updates_lead_upwards,
};
pub use unlimited::{
    places_with_equal_counts_are_alike_where_nothing_stops,
    replicas_hold_what_they_know_where_nothing_stops, runs_go_as_if_nothing_stopped_them,
};
pub use words::the_first_command_of_another_word_is_told;
