//! Where a run of a script stops before its end.

/// The first thing that stops a run. The first number is always the command's, counted from 0; the end of the script counts as one more command.
#[derive(Clone, Copy, PartialEq, Eq, Debug)]
pub enum Stop {
    /// At this command a variable passes 65,536 rows or elements: command, node, variable.
    TooLarge(u32, u8, u8),
    /// At this command the bytes of all messages pass 268,435,456.
    NetworkFull(u32),
    /// At this command a node isn't at the threshold that it has to reach.
    NotReached(u32),
}
