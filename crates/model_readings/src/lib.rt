//! What the bytes of a graph say: the declarations that they stand for, or the first refusal. Definitions and laws, and the names of the refusals.
#![tactic(auto)]

mod graph_why;
mod laws;

pub use graph_why::GraphWhy;
pub use laws::{
    accepted_graphs_are_graphs, accepted_graphs_are_lawful, read_declarations_are_lawful,
};
