//! Which of the listed forms the words of a command line have.

use super::threaded::Threaded;

/// A listed form, or none of them.
#[derive(Clone, Copy, PartialEq, Eq, Debug)]
pub enum Form {
    /// `plain GRAPH SCRIPT`
    Plain,
    /// `delta GRAPH SCRIPT`
    Delta,
    /// `check GRAPH`
    Check,
    /// `dots SCRIPT`
    Dots,
    /// `export GRAPH SCRIPT NODE`, NODE being 0 to 7
    Export(u8),
    /// `merge GRAPH FILE ..`, of 1 to 8 files
    Merge,
    /// A form for several threads.
    Threaded(Threaded),
    /// Any other words.
    Wrong,
}
