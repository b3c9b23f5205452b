//! A site as one call: a replica that lives in a file. It reads the graph, its script and its own last state, takes in the states of others, makes its updates, writes its new state and answers the status.
//!
//! ```text
//! let status = answer_site(alloc, &words, &mut files, &mut out, &mut err, &lib);
//! ```
#![tactic(auto)]

mod ending;
mod open;
mod own;
mod site;
mod state;
mod update;
mod words;

pub use site::answer_site;
