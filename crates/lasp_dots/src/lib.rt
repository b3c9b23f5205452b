//! The state of an observed-remove set that keeps no tombstones (Bieniusa et al. 2012): the pairs of a value and a token that are live, and how many updates of each node
//! it counts. A pair whose token is counted and that isn't there was removed, so memory grows with what is visible and not with what was removed. In `run/` scripts over one set run on replicas that keep such sets.
//!
//! ```text
//! let mut here = DotSet::new(alloc, 2)?;    // of two replicas
//! here.add(&value, 0)?;                     // replica 0's first update
//! there.join_in(&here.try_clone()?)?;       // what the other one makes of a message
//! let shown = there.visible()?;
//! ```
#![tactic(auto)]

mod changes;
mod counts;
mod dot;
mod edges;
mod lattice;
mod order;
mod pieces;
mod reads;
mod refused;
mod run;
mod search;
mod set;
mod weave;

pub use refused::DotRefused;
pub use run::{DotReplicas, DotRun, first_other, one_set, play_dots, run_dots};
pub use set::DotSet;
