//! Worked scripts, each with what it is read as or with the report that the model says of it, and worked journals and files, by computation. There is nothing to run here: each function's contract is a group of cases.
#![tactic(auto)]

mod advertisements;
mod binds;
mod deliveries;
mod files;
mod folds;
mod growth;
mod journals;
mod lives;
mod losses;
mod processes;
mod reads;
mod scripts;
mod sources;

pub use advertisements::advertisements_under_contract_are_shown;
pub use binds::{a_map_is_clean_after_two_binds_out_of_order, binds_may_come_out_of_order};
pub use deliveries::messages_may_cross_come_late_and_come_twice;
pub use files::{
    a_node_exports_its_message, files_are_joined_or_refused_at_a_place,
    messages_of_a_graph_are_merged,
};
pub use folds::folds_count_each_visible_value_once;
pub use growth::a_graph_may_grow_while_messages_are_on_their_way;
pub use journals::a_late_bind_changes_nothing;
pub use lives::nodes_beside_each_other_tell_what_they_did;
pub use losses::a_lost_message_is_made_up_for_and_a_repeated_one_does_nothing;
pub use processes::processes_follow_their_sets;
pub use reads::reads_are_told_at_the_end_and_an_await_is_told_at_once;
pub use scripts::{
    a_script_of_all_words_is_read, commands_are_refused_by_their_first_check,
    commands_past_their_bounds_are_refused, declarations_of_scripts_are_refused_as_in_graphs,
    scripts_are_read_from_their_bytes, scripts_without_a_beginning_are_refused,
};
pub use sources::sources_keep_what_they_were_given;
