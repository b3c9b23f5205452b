//! Runs a script over one set on replicas that keep no tombstones: each keeps its live pairs and its counts, and sends them whole.
//!
//! ```text
//! match first_other(&script) {
//!     Some(number) => ..,              // a command of a word that such replicas don't know
//!     None => run_dots(alloc, &script)?,
//! }
//! ```

mod acts;
mod command;
mod graph;
mod play;
mod replicas;
mod report;
mod sync;
mod text;
mod words;

pub use graph::one_set;
pub use play::{DotRun, play_dots, run_dots};
pub use replicas::DotReplicas;
pub use words::first_other;
