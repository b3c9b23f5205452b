//! Points: every node is settled.

ghost use Rattle.std.specs.Prelude.{◌≡◌, ◌∷◌, [], map, OnOk};
ghost use Rattle.lasp_drive.specs.Prelude.{arc_value, FitsAll, Point, library_of, AreSettled, IsReady, Passes, MaySettle, SettlesAll};

use crate::driver::Driver;
use crate::halt::Halt;
use crate::node::{Node, NodeStop};
use lasp_fns::Library;
use lasp_graph::Graph;
use std::alloc::Global;

/// Settles the nodes of a run over a graph, in their order.
fn settle_all<N: Node>(
    nodes: &mut Vec<N>,
    alloc: Global,
    graph: &Graph,
    lib: &Library,
    c: u32,
) -> Result<(), Halt>
    requires { MaySettle (library_of lib.now) graph.now (map N.view nodes.old.items) }
    ensures settles { SettlesAll c graph.now (map N.view nodes.old.items) result (map N.view nodes.new.items) }
    ensures place { map N.place nodes.new.items ≡ map N.place nodes.old.items }
{
    for p in 0..nodes.len() {
        match nodes[p].settle(alloc, lib) {
            Ok(()) => {}
            Err(NodeStop::TooLarge(x)) => return Err(Halt::TooLarge(c, p as u8, x)),
            Err(NodeStop::Memory) => return Err(Halt::Memory),
        }
    }
    Ok(())
}

impl<N: Node> Driver<N> {
    /// Command number c settles every node, nodes ascending.
    pub fn point(&mut self, alloc: Global, lib: &Library, c: u32) -> Result<(), Halt>
        requires ready { IsReady N.view N.read c self.old }
        requires fits { FitsAll (library_of lib.now) (arc_value self.old.graph) }
        ensures passes { Passes N.view N.read N.place c self.old (Point ∷ []) result self.new }
        ensures settled { OnOk result (AreSettled (map N.view self.new.nodes.items)) }
    {
        settle_all(&mut self.nodes, alloc, &self.graph, lib, c)
    }
}
