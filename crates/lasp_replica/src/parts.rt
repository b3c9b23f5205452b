//! What a job is made of, once it is given back.

use lasp_graph::{Graph, Inputs};
use lasp_logset::OrSet;
use lasp_state::State;
use std::sync::Arc;

/// What a job is made of. Unlike the job it may be dropped.
#[derive(Drop)]
pub struct JobParts {
    /// The variable.
    pub var: u8,
    /// The number of the job, as its maker counted it.
    pub n: u64,
    /// The inputs of the variable as they were when the job was made.
    pub inputs: Inputs,
    /// The graph in which the variable is declared.
    pub graph: Arc<Graph>,
    /// The inputs of its last evaluation.
    pub base: Inputs,
    /// Its state on those.
    pub before: Arc<State>,
    /// The rows that it gained, where the job was evaluated.
    pub gain: Option<OrSet>,
}
