//! A run by deltas, and how it begins.

ghost use Rattle.std.specs.Prelude.{◌≡◌, ◌≤◌, IfOk, replicate, None};
ghost use Rattle.std.specs.Arc.{arc_value};
ghost use Rattle.lasp_delta.specs.Seen.{delta_seen};
ghost use Rattle.lasp_delta.specs.Play.{Begins};

use super::letter::Letter;
use lasp_drive::{Driver, FreshNode, Node};
use lasp_graph::Graph;
use std::alloc::{AllocError, Global};
use std::sync::Arc;

/// A run of a script whose messages travel as deltas.
#[derive(Drop)]
pub struct DeltaRun<N: Node> {
    /// The run.
    pub driver: Driver<N>,
    /// Of each node the number of the message that it sent last.
    pub last: Vec<Option<u32>>,
    /// Each message as it travels.
    pub letters: Vec<Letter>,
    /// How many deliveries there were.
    pub deliveries: u64,
    /// At how many of them the receiver knew too little for the delta, and got the message.
    pub gaps: u64,
}

/// None of so many nodes sent anything.
fn none_sent(alloc: Global, nodes: u8) -> Result<Vec<Option<u32>>, AllocError>
    ensures { IfOk result (λ last. last.items ≡ replicate nodes None) }
{
    let mut last = Vec::new(alloc);
    for _ in 0..nodes {
        last.push(None)?;
    }
    Ok(last)
}

impl<N: FreshNode> DeltaRun<N> {
    /// A run of so many nodes, 1 to 8, before its first command.
    pub fn new(alloc: Global, graph: &Arc<Graph>, nodes: u8) -> Result<DeltaRun<N>, AllocError>
        requires some { 1 ≤ nodes }
        requires few { nodes ≤ 8 }
        ensures { IfOk result (λ d. Begins (arc_value graph.now) nodes (delta_seen N.view N.read d)) }
    {
        let driver = Driver::new(alloc, graph, nodes)?;
        let last = none_sent(alloc, nodes)?;
        Ok(DeltaRun {
            driver,
            last,
            letters: Vec::new(alloc),
            deliveries: 0,
            gaps: 0,
        })
    }
}
