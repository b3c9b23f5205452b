//! Runs of nodes beside each other: a store for each node, mailboxes between them, a thread that feeds each, and workers that evaluate beside all of them.
//!
//! ```text
//! let lived = live(rt, alloc, &graph, &script, 4, &lib, &NoGate)?;
//! // lived.text tells what each node went through, lived.failed at which command one failed
//! ```
#![tactic(auto)]

mod feeder;
mod posts;
mod run;
mod seat;
mod serve;

pub use feeder::{ByLibrary, Settles, StoreFeeder};
pub use run::{Lived, live};
