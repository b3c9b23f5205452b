//! What a call of a program does with its words, its files and its outputs, whichever program it is: it reads numbers among the words, opens the files that words name, takes the
//! messages of files, and ends with a text or one line, and a status.
//!
//! ```text
//! let graph = open_graph(alloc, &words, 1, &mut files, &lib)?;
//! ```
#![tactic(auto)]

mod ending;
mod message;
mod number;
mod open;
mod words;

pub use ending::status::{refusal_status, status};
pub use ending::tell::{tell, tell_failure, tell_refusal};
pub use ending::{end, end_with_text};
pub use message::{may_take, read_message, too_large};
pub use number::{node_word, number_in};
pub use open::{graph_from, open_graph, open_script, read_file, script_from};
pub use words::{name_of, word};
