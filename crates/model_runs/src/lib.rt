//! What holds along the run of a script: what stays within the ranges of the message format, and, node by node, the calls that it makes and the journals that have them. There is nothing to run here: each function's contract is a group of laws.
#![tactic(auto)]

mod calls;
mod held;
mod journals;
mod sound;
mod stops;

pub use calls::{calls_feed_a_replica, the_journal_of_the_calls_has_what_the_node_has};
pub use held::sources_stay_within_the_format;
pub use journals::{binds_leave_the_sources, journals_with_the_calls_have_the_sources};
pub use sound::{runs_go_on_soundly, runs_stay_sound};
pub use stops::runs_stop_at_declared_variables;
