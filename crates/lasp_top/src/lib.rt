//! The program as one call, with the forms that several threads run; and what `load` runs and tells: the graph and the script that fill four replicas, and the summary of their run.
#![tactic(auto)]

mod closed;
mod generator;
mod live;
mod load;
mod program;
mod summary;
mod threaded;
mod trace;

pub use generator::{load_graph, load_script};
pub use program::top;
pub use summary::load_text;
