//! The cores of stores when a run is over.

ghost use Rattle.std.specs.Prelude.{IfOk};
ghost use Rattle.lasp_threads.specs.Closed.{IsClosable, AreClosable, IsClosed, AreClosed};

use lasp_core::Core;
use lasp_store::{Feed, Store};
use std::alloc::{AllocError, Global};

/// Ends a store and answers its core.
fn close_store(store: Store, feed: Feed) -> Core
    requires { IsClosable store feed }
    ensures { IsClosed feed result }
{
    match store.close(feed) {
        Some(core) => {
            core.recall();
            core
        }
        None => unreachable!(),
    }
}

/// Ends stores whose feeds are back, with all hands, and answers their cores in the same order. It never waits.
pub fn close_stores(
    alloc: Global,
    stores: Vec<Store>,
    feeds: Vec<Feed>,
) -> Result<Vec<Core>, AllocError>
    requires { AreClosable stores.items feeds.items }
    ensures { IfOk result (λ cores. AreClosed feeds.items cores.items) }
{
    let mut cores = Vec::new(alloc);
    let mut stores_left = stores.into_iter();
    let mut feeds_left = feeds.into_iter();
    while let Some(store) = stores_left.next() {
        match feeds_left.next() {
            Some(feed) => cores.push(close_store(store, feed))?,
            None => unreachable!(),
        }
    }
    Ok(cores)
}
