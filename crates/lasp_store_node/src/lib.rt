//! Nodes of a run that stand over a store: what workers and readers do with the same replica may go on beside the run.
//!
//! ```text
//! let (store, feed) = Store::new(alloc, graph, p, nodes)?;
//! let node = StoreNode::new(rt, &store, feed);          // a `Node`, for a driver
//! let feed = node.into_feed();                          // once the driver has given it back
//! let core = store.close(feed);
//! ```
#![tactic(auto)]

mod counted;
mod last;
mod lent;
mod node;
mod shows;
mod window;

pub use node::StoreNode;
