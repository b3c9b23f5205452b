//! The graph of such a script.

ghost use Rattle.std.specs.Prelude.{◌≡◌, IfOk, codes};
ghost use Rattle.lasp_dots.specs.Prelude.{one_set};

use lasp_graph::{Decl, Graph, Kind};
use lasp_value::Name;
use std::alloc::{AllocError, Global};

/// The graph of one observed-remove set, named a.
pub fn one_set(alloc: Global) -> Result<Graph, AllocError>
    ensures { IfOk result (λ g. g ≡ one_set) }
{
    let mut graph = Graph::empty(alloc);
    if let Some(name) = Name::of(alloc, "a")? {
        let kind = Kind::OrSet;
        graph.push(alloc, Decl { name, kind })?;
    }
    Ok(graph)
}
