//! Reads that wait for their threshold, as futures, and how those that came to be met are woken.
//!
//! ```text
//! let read = store.open_read(rt, &mut hand, var, threshold)?;
//! let source = Source::new();
//! let state = block_on(rt, ReadFuture::new(Seated::new(&store, hand, rt), &source, read))??;
//! // the state is at its threshold
//! ```
//!
//! A future asks its replica at each poll and never waits for others itself: where the replica is in another's hands it asks to be polled again, and where the threshold isn't met it leaves its waker for whoever wakes the read. Nothing here says that a future is polled again.
#![tactic(auto)]

mod future;
mod wake;

pub use future::ReadFuture;
pub use wake::{Wake, wake_released};
