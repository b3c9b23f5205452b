//! What the program refuses: answers that depend on its words and on the contents of its files alone.

use crate::state_why::StateWhy;
use lasp_value::Name;
use model_readings::GraphWhy;
use model_scripts::ScriptWhy;

/// A refusal with its cause. A file is named by the place of its name among the words.
#[derive(Drop)]
pub enum Refusal {
    /// The words are of no listed form.
    Usage,
    /// The file has more than 16,777,216 bytes.
    TooLong(usize),
    /// The graph is refused at this declaration.
    Graph(u32, GraphWhy),
    /// The script is refused at this command.
    Script(u32, ScriptWhy),
    /// This command is of a word that sets without tombstones don't know.
    NotDots(u32),
    /// This command is one that nodes don't know which run beside each other.
    NotLive(u32),
    /// At this command a variable of this node passes 65,536 rows or elements. For `merge` the node is 0, and the command is the file's number from 0, or the number of files where the variable is derived.
    TooLarge(u32, u8, Name),
    /// At this command the bytes of all messages pass 268,435,456.
    NetworkFull(u32),
    /// At this command a node isn't at the threshold that it has to reach.
    NotReached(u32),
    /// This file is no message at this place, or, with place 0, none of the graph.
    State(usize, u64, StateWhy),
}
