//! How workers rest in their jobs.

use std::sync::Wait;
use std::thread::Parker;
use std::time::Duration;

/// Rests for a millisecond, as long as a worker that is kept out of a variable rests before it asks again. Two that both rest are as far apart on every machine.
pub(crate) fn rest<R: Wait>(rt: &R) {
    Parker::new().park_timeout(rt, Duration::from_millis(1));
}
