//! What replicas send each other.
//!
//! ```text
//! let message = message_of(alloc, &graph, &sources, &counts)?;
//! let number = network.send(message)?;
//! let message = network.receive(number)?;
//! ```
#![tactic(auto)]

mod compose;
mod network;
mod refused;
mod tally;

pub use compose::message_of;
pub use network::Network;
pub use refused::SendRefused;
