//! The stores of a run.

ghost use Rattle.std.specs.Prelude.{◌≡◌, ◌≤◌, IfOk, length};
ghost use Rattle.std.specs.Arc.{arc_value};
ghost use Rattle.lasp_threads.specs.Stores.{AreFirst};

use lasp_graph::Graph;
use lasp_store::{Feed, Store};
use std::alloc::{AllocError, Global};
use std::sync::Arc;

/// A store for each of so many nodes, at most 8, to which nothing has happened, and their feeds.
pub fn fresh_stores(
    alloc: Global,
    graph: &Arc<Graph>,
    nodes: u8,
) -> Result<(Vec<Store>, Vec<Feed>), AllocError>
    requires { nodes ≤ 8 }
    ensures stores { IfOk result (λ made. length made.0.items ≡ nodes) }
    ensures feeds { IfOk result (λ made. AreFirst (arc_value graph.now) made.0.items made.1.items) }
{
    let mut stores = Vec::new(alloc);
    let mut feeds = Vec::new(alloc);
    for p in 0..nodes {
        let (store, feed) = Store::new(alloc, Arc::try_clone(graph)?, p, nodes)?;
        stores.push(store)?;
        feeds.push(feed)?;
    }
    Ok((stores, feeds))
}
