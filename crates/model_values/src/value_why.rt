//! Why a tree of JSON stands for no value.

/// Why no value is read from a tree.
#[derive(Clone, Copy, PartialEq, Eq, Debug)]
pub enum ValueWhy {
    /// The first part that stands for no value is a null, a truth value, an object, or an array of other than two parts.
    NotAValue,
    /// The first part that stands for no value is a number that isn't a whole one of 64 bits with a sign.
    NumberRefused,
    /// It stands for a value of more than 8 numbers and texts, or of more than 256 bytes of text.
    TooBig,
}
