//! Why a file can't be merged.

use model_wire::WireWhy;

/// Why the bytes of a file can't be joined into a replica of the graph.
#[derive(Clone, Copy, PartialEq, Eq, Debug)]
pub enum StateWhy {
    /// They are no message.
    Wire(WireWhy),
    /// The message is of another graph, or of another number of nodes than the first file's.
    WrongGraph,
}
