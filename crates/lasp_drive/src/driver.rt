//! The driver: the nodes of a run, what they sent, marked and are to read, and the lines that were printed.

ghost use Rattle.std.specs.Prelude.{◌≡◌, ◌<◌, ◌≤◌, IfOk, length, map};
ghost use Rattle.std.specs.Arc.{arc_value};
ghost use Rattle.lasp_drive.specs.Node.{AreFresh};
ghost use Rattle.lasp_drive.specs.Marks.{IsNoted};
ghost use Rattle.lasp_drive.specs.Driver.{seen, Starts};

use super::node::{FreshNode, Node, Tail};
use lasp_gossip::Network;
use lasp_graph::Graph;
use lasp_state::State;
use std::alloc::{AllocError, Global};
use std::sync::Arc;

/// The most bytes that all messages of a run may have.
const NETWORK_LIMIT: u64 = 268_435_456;

/// What a source held when it was marked.
#[derive(Drop)]
pub struct Mark {
    /// The source.
    pub var: u8,
    /// What it held.
    pub state: Arc<State>,
    /// Nodes of which it is known that their source holds at least that: those where it was marked or bound.
    pub known: Vec<u8>,
}

/// Notes with a mark that a node holds it, unless memory for that is wanting.
pub(crate) fn note(marks: &mut Vec<Mark>, mark: u32, node: u8)
    requires { mark < length marks.old.items }
    ensures { IsNoted marks.old.items mark node marks.new.items }
{
    if !marks[mark as usize].known.contains(&node) {
        let _ = marks[mark as usize].known.push(node);
    }
}

/// A read that was opened at a node.
#[derive(Drop)]
pub struct OpenRead<R: Drop> {
    /// The node.
    pub node: u8,
    /// The read as the node knows it.
    pub read: R,
}

/// A run of a script: its graph so far, its nodes by their numbers, all that was sent, marked and opened so far, and the printed lines.
#[derive(Drop)]
pub struct Driver<N: Node> {
    /// The graph, with what was declared so far.
    pub graph: Arc<Graph>,
    /// The nodes.
    pub nodes: Vec<N>,
    /// The messages.
    pub network: Network,
    /// What each message has beyond its sender's message before, where that was told.
    pub tails: Vec<Option<Tail>>,
    /// The marks.
    pub marks: Vec<Mark>,
    /// The reads.
    pub reads: Vec<OpenRead<N::Read>>,
    /// The printed lines.
    pub text: String,
}

/// So many nodes to which nothing has happened.
fn fresh_nodes<N: FreshNode>(
    alloc: Global,
    graph: &Arc<Graph>,
    nodes: u8,
) -> Result<Vec<N>, AllocError>
    requires { nodes ≤ 8 }
    ensures { IfOk result (λ all. AreFresh (arc_value graph.now) nodes nodes (map N.view all.items)) }
{
    let mut all = Vec::new(alloc);
    for p in 0..nodes {
        all.push(N::new(alloc, graph, p, nodes)?)?;
    }
    Ok(all)
}

impl<N: Node> Driver<N> {
    /// A run of these nodes, 1 to 8, before its first command. It takes no memory.
    pub fn of(alloc: Global, graph: Arc<Graph>, nodes: Vec<N>) -> Driver<N>
        requires some { 1 ≤ length nodes.items }
        requires few { length nodes.items ≤ 8 }
        requires fresh { AreFresh (arc_value graph) (length nodes.items) (length nodes.items) (map N.view nodes.items) }
        ensures starts { Starts (arc_value graph) (length nodes.items) (seen N.view N.read result) }
        ensures same { result.nodes ≡ nodes }
    {
        Driver {
            graph,
            nodes,
            network: Network::new(alloc, NETWORK_LIMIT),
            tails: Vec::new(alloc),
            marks: Vec::new(alloc),
            reads: Vec::new(alloc),
            text: String::new(alloc),
        }
    }

    /// The nodes of a run, by their numbers. It takes no memory.
    pub fn into_nodes(self) -> Vec<N>
        ensures { result ≡ self.nodes }
    {
        let Driver { nodes, .. } = self;
        nodes
    }
}

impl<N: FreshNode> Driver<N> {
    /// A run of so many nodes, 1 to 8, before its first command.
    pub fn new(alloc: Global, graph: &Arc<Graph>, nodes: u8) -> Result<Driver<N>, AllocError>
        requires some { 1 ≤ nodes }
        requires few { nodes ≤ 8 }
        ensures { IfOk result (λ d. Starts (arc_value graph.now) nodes (seen N.view N.read d)) }
    {
        let share = Arc::try_clone(graph)?;
        Ok(Driver::of(alloc, share, fresh_nodes(alloc, graph, nodes)?))
    }
}
