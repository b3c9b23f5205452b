//! What a script does to a world of replicas, where it stops and what its report says: definitions and laws, no code but the enum of stops.
#![tactic(auto)]

mod acts;
mod known;
mod laws;
mod limits;
mod places;
mod report;
mod stop;
mod tokens;

pub use acts::acts_keep_what_is_known;
pub use known::{known_is_the_join_of_the_first_updates, replicas_hold_what_they_know};
pub use laws::{points_and_deliveries_stop_at_what_is_too_large, runs_stop_at_their_first_stop};
pub use limits::runs_keep_the_limits_of_their_scripts;
pub use places::places_with_equal_counts_are_alike;
pub use report::reports_can_be_told_from_what_is_known;
pub use stop::Stop;
pub use tokens::tokens_belong_to_one_add;
