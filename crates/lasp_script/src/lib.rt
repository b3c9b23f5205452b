//! Scripts: what the nodes of a run do, command after command, read from JSON against a graph and a library.
//!
//! A script is made by `read_script`, which says of a refused file which command is to blame, and why. Contracts see a script as its number of nodes and the list of its commands.
#![tactic(auto)]

mod asked;
mod bound;
mod command;
mod declared;
mod kinds;
mod marks;
mod part;
mod payload;
mod place;
mod placed;
mod progress;
mod read;
mod refused;
mod script;
mod step;
mod update;
mod usual;
mod word;

pub use command::{Command, Until};
pub use model_scripts::ScriptWhy;
pub use read::read_script;
pub use refused::ScriptRefused;
pub use script::Script;
pub use usual::usual_script;
