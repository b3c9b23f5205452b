//! What variables hold, their order and join, what updates join in, and the thresholds of reads. There is nothing to run here: each function's contract is a group of laws.
#![tactic(auto)]

mod contents;
mod deltas;
mod parts;
mod sizes;
mod thresholds;

pub use contents::{contents_are_a_lattice, contents_are_told_by_keys};
pub use deltas::{deltas_are_of_their_shape, deltas_have_these_keys, shapes_are_kept};
pub use parts::{counts_are_a_lattice, registers_are_told_by_what_they_reached};
pub use sizes::greater_contents_are_no_smaller;
pub use thresholds::{thresholds_are_upward_closed, thresholds_mean_this};
