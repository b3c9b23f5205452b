//! Runs of scripts over nodes of any engine: the acts that commands are made of, each proved to do what it does to the world of the script, the commands one after the other, and the report.
//!
//! ```text
//! let fresh = Driver::of(alloc, graph, nodes);
//! let (mut driver, end) = run_through(fresh, alloc, lib, &script, &mut Alone);
//! let text = driver.report(alloc)?;                    // where end is Ok
//! let nodes = driver.into_nodes();
//! ```
#![tactic(auto)]

mod act;
mod beside;
mod driver;
mod halt;
mod node;
mod play;
mod report;
mod text;

pub use beside::{Alone, Beside};
pub use driver::{Driver, Mark, OpenRead};
pub use halt::Halt;
pub use node::{FreshNode, Letter, Node, NodeStop, Tail};
pub use play::{advance, drive_on, export_on, is_point, run_on, run_through};
pub use text::{push_counts, push_state};
