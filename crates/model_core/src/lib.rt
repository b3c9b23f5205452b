//! What the code of a replica rests on: what its journal makes of it in the world, which entries keep the journal legal, when its derived variables are clean, and how it is told in lines. There is nothing to run here: each function's contract is a group of laws.
#![tactic(auto)]

mod binds;
mod cores;
mod legal;
mod peers;
mod traces;

pub use binds::{
    binds_make_clean, binds_raise_the_base, binds_set_their_variable,
    clean_variables_are_evaluated, first_entries_stand_below,
};
pub use cores::{entries_keep_the_core, entries_release_what_they_met, reads_stay_met};
pub use legal::{
    contents_are_within_the_limits, messages_have_the_first_sources, these_entries_are_legal,
    what_is_read_is_valid,
};
pub use peers::{entries_change_the_graph, entries_change_the_peer};
pub use traces::journals_name_declared_variables;
