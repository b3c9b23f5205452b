//! Why calls were given up.

use std::error::Error;

/// Why calls were given up.
#[derive(Clone, Copy, Debug)]
pub enum Wrong {
    /// A call that adds no entry changed the core.
    Changed,
    /// A variable that has followed the sources isn't what plain evaluation gives.
    Evaluated,
    /// A job's state by the rows that it brings isn't the one by its base and inputs.
    ByBase,
    /// A line isn't a call.
    Line,
    /// A call was refused that is accepted, or no memory was left.
    Refused,
}

impl<E: Error> From<E> for Wrong {
    fn from(_error: E) -> Wrong {
        Wrong::Refused
    }
}
