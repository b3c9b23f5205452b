//! Runs of scripts over stores, with workers beside them: the run's thread feeds the stores, while workers on threads of their own evaluate what follows.
//!
//! ```text
//! // one store and its feed for each node
//! let (stores, mut feeds) = fresh_stores(alloc, &graph, script.nodes())?;
//! let report = drive(rt, alloc, &graph, &stores, &mut feeds, &script, 4, &lib, &NoGate)?;
//! // the feeds are back, so the stores can be closed, and answer their cores
//! let cores = close_stores(alloc, stores, feeds)?;
//! ```
#![tactic(auto)]

mod aside;
mod calls;
mod closing;
mod hands;
mod nodes;
mod report;
mod run;
mod shared;
mod stores;
mod stretch;
mod turns;
mod worker;
mod worth;

pub use closing::close_stores;
pub use hands::{rejoin_all, seat_all};
pub use run::drive;
pub use shared::Shared;
pub use stores::fresh_stores;
pub use stretch::call_beside;
pub use worker::{Worker, Works};
