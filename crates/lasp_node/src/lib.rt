//! Nodes of a run that keep a replica core: the engine that evaluates changed rows alone.
#![tactic(auto)]

mod message;
mod node;
mod settling;

pub use message::message_of;
pub use node::{CoreNode, LastSent};
pub use settling::settle;
