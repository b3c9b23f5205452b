//! What a site refuses: answers that depend on its words and on the contents of its files alone.

use lasp_value::Name;
use model_program::Refusal;

/// A refusal with its cause. A file is named by the place of its name among the words.
#[derive(Drop)]
pub enum SiteRefusal {
    /// As the program `lasp` refuses it: the words, a file that is too long, the graph, the script, a state, or a variable that a command makes too large.
    Shared(Refusal),
    /// This command is no update of the site's own replica.
    NotLocal(u32),
    /// With this file's state the variable passes 65,536 rows or elements, at this node.
    FileTooLarge(usize, u8, Name),
    /// At this command the updates of this node pass 100,000.
    UpdatesFull(u32, u8),
}
