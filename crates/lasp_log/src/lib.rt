//! A log: a list that only grows at its end. What is written stays as it is, so that a state of the past is a length, or a share of the chunks that the log is kept in.
//!
//! The owner pushes items and then seals what came; a share costs a count for each sealed chunk, and reading what came since a place touches nothing before it.
#![tactic(auto)]

mod chunk;
mod items;
mod log;
mod share;

pub use items::Items;
pub use log::Log;
pub use share::Share;
