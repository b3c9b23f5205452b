//! Graphs: the variables of a runtime, each a source or a process over earlier variables, read from JSON.
//!
//! A graph is made by `read_graph`, which says of a refused file which declaration is to blame, and why. Contracts see a graph as the list of its declarations.
#![tactic(auto)]

mod decl;
mod delta;
mod evaluate;
mod fits;
mod graph;
mod increment;
mod inputs;
mod kind;
mod process;
mod read;
mod refused;
mod sources;
mod states;
mod tree;
mod upkeep;
mod written;

pub use decl::Decl;
pub use delta::{node_delta, node_gain, node_increment, node_rows_gained};
pub use evaluate::{eval_all, eval_by_variable, eval_node};
pub use graph::Graph;
pub use increment::{Gain, RowsGained};
pub use inputs::{EvalAll, EvalRefused, Inputs};
pub use kind::{FoldOp, Kind, LiftRef, MapRef, PredRef};
pub use model_readings::GraphWhy;
pub use read::{read_decl, read_graph};
pub use refused::{DeclRefused, GraphRefused};
pub use sources::{equations_are_processes_on_inputs, sources_are_found_again, sources_of};
pub use states::States;
pub use tree::{has_items, is_word_at, number_at, text_at};
pub use written::is_declaration;
