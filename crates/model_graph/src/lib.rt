//! Graphs of variables and their evaluation from scratch. There is nothing to run here: each function's contract is a group of laws.
#![tactic(auto)]

mod equations;
mod evaluation;
mod folds;
mod limits;
mod shown;
mod widths;

pub use equations::{equations_follow_changed_rows, equations_follow_their_inputs};
pub use evaluation::{evaluation_follows_the_sources, evaluation_solves_the_equations};
pub use folds::{folds_combine_a_group, folds_follow_changed_rows};
pub use limits::the_least_large_variable_is_found;
pub use shown::evaluation_shows_the_algebra;
pub use widths::variables_are_of_their_widths;
