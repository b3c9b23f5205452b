//! Tests of what a run leaves behind, which the program drops, of nodes that come in and go out again, of deltas and runs by them, and of what errors say.
#![tactic(auto)]

#[cfg(test)]
mod deltas;
#[cfg(test)]
mod errors;
#[cfg(test)]
mod nodes;
#[cfg(test)]
mod spellings;
#[cfg(test)]
mod stretches;
