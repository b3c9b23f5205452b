//! Why bytes are no message.

/// Why the first field of a message that can't be read can't be read.
#[derive(Clone, Copy, PartialEq, Eq, Debug)]
pub enum WireWhy {
    /// The input ends within the field.
    Short,
    /// A byte of the beginning is another, or the version is unknown.
    Magic,
    /// A kind, a tag or a truth value isn't one of those that there are.
    Kind,
    /// A row, an element, a value or a token isn't above the one before it.
    Order,
    /// A name isn't of a name's shape, or a text isn't UTF-8.
    Text,
    /// A number is out of its range, or a value is too large.
    Range,
    /// Bytes follow the last field.
    Rest,
}
