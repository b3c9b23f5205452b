//! What the feeders of a run tell each other beside the mailboxes. Nothing is known of it but that it is there.

use std::sync::atomic::{AtomicBool, AtomicU64, Ordering};

/// Whether all shall stop, and how many have begun. Threads share it.
#[derive(Drop)]
pub struct Signal {
    stop: AtomicBool,
    begun: AtomicU64,
}

impl Signal {
    /// Nobody has begun, and nobody shall stop.
    pub fn new() -> Signal {
        Signal {
            stop: AtomicBool::new(false),
            begun: AtomicU64::new(0),
        }
    }

    /// All shall stop: memory is wanting.
    pub(crate) fn stop(&self) {
        self.stop.store(true, Ordering::SeqCst);
    }

    /// Whether all shall.
    pub(crate) fn is_stopped(&self) -> bool {
        self.stop.load(Ordering::SeqCst)
    }

    /// One more has begun.
    pub(crate) fn begin(&self) {
        self.begun.fetch_add(1, Ordering::SeqCst);
    }

    /// Whether so many have.
    pub(crate) fn have_begun(&self, nodes: u64) -> bool {
        nodes <= self.begun.load(Ordering::SeqCst)
    }
}
