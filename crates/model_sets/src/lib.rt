//! What the states of observed-remove sets mean, what the processes over them give, and the laws of both. There is nothing to run here: each function's contract is a group of laws.
#![tactic(auto)]

mod algebra;
mod folds;
mod loops;
mod plain;
mod processes;
mod reads;
mod rises;
mod states;
mod updates;

pub use algebra::{
    processes_keep_dead_tokens, processes_show_the_plain_operations, visible_values_have_a_live_row,
};
pub use folds::folds_follow_a_change;
pub use loops::loops_compute_the_definitions;
pub use plain::{plain_operations_hold_these_values, plain_sets_are_a_lattice};
pub use processes::{
    changed_rows_have_what_is_shown_anew, processes_are_monotone, processes_follow_increments,
    processes_have_these_rows, processes_send_joins_to_joins, what_changed_is_what_is_more,
};
pub use reads::passes_find_the_rows_of_a_value;
pub use rises::logs_tell_what_changed;
pub use states::{joins_go_by_parts, orders_can_be_tested, states_are_a_lattice};
pub use updates::adds_survive_removes_that_did_not_observe_them;
