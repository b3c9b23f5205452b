//! Why the program writes no text.

use crate::refusal::Refusal;

/// A refusal, or a fault of the machine that it runs on.
#[derive(Drop)]
pub enum Failure {
    /// The words and files are refused.
    Refused(Refusal),
    /// This file, named by its place among the words, couldn't be read.
    ReadFault(usize),
    /// No memory was left.
    Memory,
}
