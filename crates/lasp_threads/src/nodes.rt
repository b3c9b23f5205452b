//! The feeds of stores as nodes of a run.

ghost use Rattle.std.specs.Prelude.{◌≡◌, ◌≤◌, [], All, IfOk, OnOk, OnErr, vec_len, vec_capacity};
ghost use Rattle.lasp_store_node.specs.View.{IsFeed};
ghost use Rattle.lasp_threads.specs.Spots.{AreFeeds, unsent, feeds_of};

use lasp_store::{Feed, Store};
use lasp_store_node::StoreNode;
use std::alloc::{AllocError, Global};
use std::sync::Wait;

/// The nodes of the stores. Where there is no memory for them, the feeds stay.
pub(crate) fn nodes_of<'a, R: Wait>(
    rt: &'a R,
    alloc: Global,
    stores: &'a [Store],
    feeds: &mut Vec<Feed>,
) -> Result<Vec<StoreNode<'a, R>>, AllocError>
    requires { AreFeeds stores.now feeds.old.items }
    ensures nodes { IfOk result (λ made. made.items ≡ unsent feeds.old.items) }
    ensures taken { OnOk result (feeds.new.items ≡ []) }
    ensures room { OnOk result (vec_len feeds.old ≤ vec_capacity feeds.new) }
    ensures err { OnErr result (feeds.new ≡ feeds.old) }
{
    let mut nodes = Vec::new(alloc);
    nodes.reserve(stores.len())?;
    for p in 0..stores.len() {
        let feed = feeds.remove(0);
        match nodes.push(StoreNode::new(rt, &stores[p], feed)) {
            Ok(()) => {}
            Err(_) => unreachable!(),
        }
    }
    Ok(nodes)
}

/// Gives the feeds of nodes back. It takes no memory.
pub(crate) fn give_feeds<R: Wait>(feeds: &mut Vec<Feed>, nodes: Vec<StoreNode<'_, R>>)
    requires none { feeds.old.items ≡ [] }
    requires room { vec_len nodes ≤ vec_capacity feeds.old }
    ensures feeds { feeds.new.items ≡ feeds_of nodes.entry.items }
    ensures are { All (λ f. IsFeed f.lock f) feeds.new.items }
{
    let mut left = nodes.into_iter();
    while let Some(node) = left.next() {
        match feeds.push(node.into_feed()) {
            Ok(()) => {}
            Err(_) => unreachable!(),
        }
    }
}
