//! What the workers of a run share.

use crate::calls::Calls;
use crate::turns::Visits;
use crate::worth::Worth;
use std::alloc::Global;
use std::sync::atomic::AtomicBool;

/// What the workers of a run look at, and who feeds their stores.
#[derive(Drop)]
pub struct Shared {
    pub(crate) calls: Calls,
    /// Whether the stretch goes on to which they are called.
    pub(crate) more: AtomicBool,
    pub(crate) visits: Visits,
    pub(crate) worth: Worth,
}

impl Shared {
    /// Nobody is called yet, nor at any variable of so many nodes.
    pub(crate) fn new(alloc: Global, nodes: u8) -> Shared {
        Shared {
            calls: Calls::new(),
            more: AtomicBool::new(false),
            visits: Visits::new(alloc, nodes),
            worth: Worth::new(),
        }
    }
}
