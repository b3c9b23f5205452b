//! What calls must not come to.

use std::error::Error;

/// What calls came to that they must not come to.
#[derive(Clone, Copy, Debug)]
pub enum Wrong {
    /// The two sorts of sets show other values, or have other numbers of live rows.
    Differs,
    /// There is no such node.
    NoNode,
    /// A call was refused, or no memory was left.
    Refused,
}

impl<E: Error> From<E> for Wrong {
    fn from(_error: E) -> Wrong {
        Wrong::Refused
    }
}
