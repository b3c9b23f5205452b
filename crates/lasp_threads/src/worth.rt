//! Whether workers are worth calling behind a short stretch.

use std::sync::atomic::{AtomicBool, AtomicU64, Ordering};

/// After how many calls in which no two workers were in jobs at once calls are left out.
const FEW: u64 = 4;

/// How many calls are left out in a row, at most.
const MOST: u64 = 64;

/// How often workers were called behind short stretches without two being in jobs at once. What one of them does alone the run's thread does as well, and need not call it. Threads share it.
#[derive(Drop)]
pub(crate) struct Worth {
    /// How many workers are in their jobs.
    inside: AtomicU64,
    /// Whether two were at once, since a short stretch was noted last.
    have_met: AtomicBool,
    /// How many calls have ended since in one of them two were.
    lonely: AtomicU64,
    /// How many stretches are left to which they aren't called.
    left_out: AtomicU64,
}

impl Worth {
    pub(crate) fn new() -> Worth {
        Worth {
            inside: AtomicU64::new(0),
            have_met: AtomicBool::new(false),
            lonely: AtomicU64::new(0),
            left_out: AtomicU64::new(0),
        }
    }

    /// A worker begins a job.
    pub(crate) fn begin(&self) {
        if self.inside.fetch_add(1, Ordering::SeqCst) > 0 {
            self.have_met.store(true, Ordering::SeqCst);
        }
    }

    /// A worker ends its job.
    pub(crate) fn end(&self) {
        self.inside.fetch_sub(1, Ordering::SeqCst);
    }

    /// Whether the workers are to be called behind the next short stretch.
    pub(crate) fn is_due(&self) -> bool {
        let left = self.left_out.load(Ordering::SeqCst);
        self.left_out
            .store(left.saturating_sub(1), Ordering::SeqCst);
        left == 0
    }

    /// A call behind a short stretch has ended. The more of them ended without two in jobs at once, the more are left out.
    pub(crate) fn note(&self) {
        if self.have_met.swap(false, Ordering::SeqCst) {
            self.lonely.store(0, Ordering::SeqCst);
            return;
        }
        let lonely = self.lonely.load(Ordering::SeqCst).saturating_add(1);
        self.lonely.store(lonely, Ordering::SeqCst);
        if FEW <= lonely {
            self.left_out.store(lonely.min(MOST), Ordering::SeqCst);
        }
    }
}
