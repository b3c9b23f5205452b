//! What the operations of stored functions mean on plain values. There is nothing to run here: each function's contract is a group of laws.
#![tactic(auto)]

mod maps;

pub use maps::maps_make_no_value_larger;
