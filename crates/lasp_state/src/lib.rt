//! The state of a variable, whatever its kind, and the operations on it.
//!
//! ```text
//! let delta = state.delta(alloc, &Op::Add(value), replica, k)?;
//! let grew = state.join_in(&delta)?;
//! ```
#![tactic(auto)]

mod counter;
mod elements;
mod fold;
mod gset;
mod gset_lattice;
mod laws;
mod op;
mod print;
mod raise;
mod register;
mod state;
mod threshold;
mod upkeep;

pub use counter::{COUNT_MAX, GCount};
pub use elements::Elements;
pub use gset::GSet;
pub use laws::{states_are_a_lattice, thresholds_stay_met};
pub use op::Op;
pub use print::print_state;
pub use raise::are_at_most;
pub use register::MaxReg;
pub use state::State;
pub use threshold::Threshold;
