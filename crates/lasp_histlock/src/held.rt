//! The value of a lock, in the hands of who has the turn.

use std::snapshot::Snapshot;

/// The value, while it is out. It is to be given back: where it is taken apart instead, the lock stays taken.
pub struct Held<T> {
    pub value: T,
    /// The value as it was taken, which clauses alone read.
    pub taken: Snapshot<T>,
}
