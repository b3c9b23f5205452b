//! Nodes that run beside each other: what each does by its commands, with mailboxes between them.
//!
//! A feeder ([`Feeder`]) feeds the replica of one node, whoever else works on it. [`feed_node`] does the node's commands with it: it
//! puts what the node sends into the mailboxes to all others, and takes what came from them where the node waits for a threshold, and
//! at its end. What it tells is a diary ([`Diary`]): what was sent and printed, and how many entries the journal had then.
//!
//! ```text
//! // box q * nodes + p goes from node q to node p; each node has its ends of them
//! let diary = feed_node(rt, alloc, &mut feeder, me, &graph, &script, &boxes, &mut outs, &mut ins, &signal)?;
//! // ... of each node, each on a thread of its own; and when all are back and the mailboxes closed:
//! let text = live_text(alloc, &graph, &cores, &diaries)?;
//! ```
#![tactic(auto)]

mod commands;
mod diary;
mod feeder;
mod large;
mod log;
mod mail;
mod node;
mod own;
mod post;
mod rest;
mod signal;
mod step;
mod takes;
mod text;
mod words;

pub use diary::{Diary, Note, Noted};
pub use feeder::Feeder;
pub use large::first_too_large;
pub use mail::{Letter, Mail};
pub use node::feed_node;
pub use signal::Signal;
pub use text::live_text;
pub use words::first_other;
