//! What a replica's list of entries comes to, and what holds of each variable wherever the entries are legal. There is nothing to run here: each function's contract is a group of laws.
#![tactic(auto)]

mod callers;
mod clean;
mod derived;
mod entries;
mod legal;
mod message;
mod prefixes;
mod valid;

pub use callers::the_feed_tells_the_sources;
pub use clean::{
    applied_versions_are_the_greatest_read, clean_variables_equal_their_equations,
    clean_variables_have_read_their_inputs,
};
pub use derived::derived_contents_stay_below_evaluation;
pub use entries::{
    a_bind_changes_its_variable, a_declaration_adds_a_variable, a_delivery_changes_sources,
    an_update_changes_its_variable, versions_count_where_a_variable_grew,
};
pub use legal::{
    binds_apply_the_versions_that_they_read, lawful_entries_stay_valid_within_the_limits,
    legal_entries_go_one_by_one,
};
pub use message::messages_may_be_delivered;
pub use prefixes::journals_only_grow;
pub use valid::contents_stay_valid;
