//! A declaration: every node goes on with a larger graph.

ghost use Rattle.std.specs.Prelude.{◌≡◌, ◌++◌, ◌∷◌, [], length, map, OnOk, OnErr};
ghost use Rattle.lasp_drive.specs.Prelude.{arc_value, fed, GoesOnWithin, Extend, decl_of, AreNodes, MayAct, Passes, AllExtend};
ghost use Rattle.model_journal.specs.Entry as model;

use crate::driver::Driver;
use crate::halt::Halt;
use crate::node::Node;
use lasp_graph::{Decl, Graph};
use std::alloc::{AllocError, Global};
use std::sync::Arc;

/// Has every node of a run go on with a graph that has one declaration more.
fn extend_all<N: Node>(
    nodes: &mut Vec<N>,
    alloc: Global,
    before: &Graph,
    graph: &Arc<Graph>,
    decl: &Decl,
) -> Result<(), AllocError>
    requires nodes { AreNodes before.now (length (map N.view nodes.old.items)) (map N.view nodes.old.items) }
    requires next { arc_value graph.now ≡ before.now ++ decl_of decl.now ∷ [] }
    ensures all { OnOk result (AllExtend (arc_value graph.now) (decl_of decl.now) (map N.view nodes.old.items) (map N.view nodes.new.items)) }
    ensures calls { OnErr result (GoesOnWithin (map N.view nodes.old.items) (map N.view nodes.new.items) (λ p. fed (model.Extend (decl_of decl.now)) ∷ [])) }
    ensures place { map N.place nodes.new.items ≡ map N.place nodes.old.items }
{
    for p in 0..nodes.len() {
        nodes[p].extend(alloc, graph)?;
    }
    Ok(())
}

impl<N: Node> Driver<N> {
    /// Declares a variable at every node.
    pub fn extend(&mut self, alloc: Global, c: u32, decl: &Decl) -> Result<(), Halt>
        requires { MayAct N.view N.read c self.old (Extend (decl_of decl.now)) }
        ensures { Passes N.view N.read N.place c self.old (Extend (decl_of decl.now) ∷ []) result self.new }
    {
        let grown = Arc::new(alloc, self.graph.with(alloc, decl)?)?;
        extend_all(&mut self.nodes, alloc, &self.graph, &grown, decl)?;
        self.graph = grown;
        Ok(())
    }
}
