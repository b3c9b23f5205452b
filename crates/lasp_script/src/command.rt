//! One command, and the threshold that it may have.

use lasp_graph::Decl;
use lasp_value::{Value, Values};

/// What a command asks of a variable. A mark is named by its number, counted from 0 among the script's marks.
#[derive(Drop)]
pub enum Until {
    /// The state is at least the marked one.
    AtLeast(u32),
    /// The state is at least the marked one, and not the same.
    Above(u32),
    /// There are so many elements, or so large a total.
    Count(u64),
    /// Each of the values has a row, or is an element.
    Added(Values),
    /// Each of the values has a dead row.
    Removed(Values),
}

/// What a node does. The first number is the node; where there are two, the second is the variable.
#[derive(Drop)]
pub enum Command {
    /// The value is added to an observed-remove set.
    Add(u8, u8, Value),
    /// What the node observes of the value is removed from an observed-remove set.
    Remove(u8, u8, Value),
    /// The value is inserted into a grow-only set.
    Insert(u8, u8, Value),
    /// A counter counts so many more, 1 to 4,294,967,295.
    Inc(u8, u8, u32),
    /// A register is raised to the number, where it's greater than what the register holds.
    Max(u8, u8, i64),
    /// The present state of a source gets the next mark's number.
    Mark(u8, u8),
    /// The state of the mark with the number, which was made of the same source, is joined in.
    Bind(u8, u8, u32),
    /// A message of the node gets the next message's number.
    Send(u8),
    /// The message with the number is delivered at the node.
    Deliver(u8, u32),
    /// Each node sends a message, in order, and each is delivered at all others.
    Sync,
    /// What isn't settled yet is, at each node.
    Settle,
    /// The variable is printed.
    Print(u8, u8),
    /// A read of the variable is opened.
    Read(u8, u8, Until),
    /// The variable has to meet the threshold.
    Await(u8, u8, Until),
    /// The variable is declared behind those that are there, at each node.
    Declare(Decl),
}
