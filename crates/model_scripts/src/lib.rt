//! What the bytes of a script say against a graph and a library, with all of a script's words: the commands that they stand for, or the first refusal. Definitions and laws, and the names of the refusals.
#![tactic(auto)]

mod accepted;
mod causes;
mod growth;
mod refused;
mod script_why;

pub use accepted::accepted_scripts_are_lawful;
pub use causes::{causes_of_commands, commands_are_read_by_their_words};
pub use growth::graphs_grow_by_declarations;
pub use refused::scripts_are_refused_at_their_first_refusal;
pub use script_why::ScriptWhy;
