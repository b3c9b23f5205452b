//! Where files are read from and output is written to.
//!
//! A program takes `F: Files` and `S: Sink`, so that the same code runs over real files and over
//! files in memory whose calls fail when they are told to. A caller copies a file by
//!
//! ```text
//! let bytes = files.fetch(alloc, "graph.json", 4096)?;
//! out.put(&bytes)?;
//! ```
#![tactic(auto)]

mod count;
mod dir_files;
mod error;
mod files;
mod mem_files;
mod mem_sink;
mod read;
mod shelf;
mod sink;
mod std_sink;
mod sure_files;
mod sure_sink;
mod write;

pub use dir_files::DirFiles;
pub use error::{Failed, Fetch};
pub use files::Files;
pub use mem_files::MemFiles;
pub use mem_sink::MemSink;
pub use read::read_up_to;
pub use sink::Sink;
pub use std_sink::StdSink;
pub use sure_files::SureFiles;
pub use sure_sink::SureSink;
pub use write::write_whole;
