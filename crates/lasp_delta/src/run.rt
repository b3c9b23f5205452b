//! Runs of scripts whose messages travel as deltas: each message goes as what changed since its sender's message before, and a delivery applies this to what the receiver has. The driver does all
//! else, and the report is that of the run.
//!
//! ```text
//! let text = deltas_on::<CoreNode>(alloc, &graph, &lib, &script)?;      // the report, and `delta DELIVERIES GAPS BYTES`
//! ```

mod act;
mod deltas;
mod hand;
mod letter;
mod play;
mod report;
mod sync;

pub use deltas::DeltaRun;
pub use letter::Letter;
pub use play::deltas_on;
