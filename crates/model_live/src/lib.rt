//! Nodes that run beside each other: which scripts they may run, which stories they may come to, and the text that tells these. There is nothing to run here: each function's contract is a group of laws.
#![tactic(auto)]

mod hearings;
mod large;
mod letters;
mod numbers;
mod steps;
mod stories;
mod updates;
mod words;

pub use hearings::{
    news_leave_a_nodes_own_counts, nodes_hear_letters, nodes_know_as_their_journals_go_on,
};
pub use large::what_is_too_large_is_derived;
pub use letters::{letters_are_refused_for_want_of_memory_alone, nodes_stay_within_what_all_do};
pub use numbers::numbers_tell_the_sender;
pub use steps::steps_go_on_by_commands;
pub use stories::{stories_end, stories_go_on, texts_are_told_in_order};
pub use updates::nodes_know_their_own_updates;
pub use words::the_first_command_of_another_word_is_told;
