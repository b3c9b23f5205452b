//! Why calls were given up.

use std::error::Error;

/// A call was refused that is accepted, or no memory was left.
#[derive(Clone, Copy, Debug)]
pub struct Wrong;

impl<E: Error> From<E> for Wrong {
    fn from(_error: E) -> Wrong {
        Wrong
    }
}
