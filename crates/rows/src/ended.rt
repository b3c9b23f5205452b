//! How a run ends.

use std::alloc::{AllocError, Global};

/// How a run ended, or must end: its status, its text and its line of an error.
#[derive(Drop)]
pub struct Ended {
    pub status: u8,
    pub out: Vec<u8>,
    pub err: Vec<u8>,
}

impl Ended {
    /// Status 0, and nothing written.
    pub fn new(alloc: Global) -> Ended {
        Ended {
            status: 0,
            out: Vec::new(alloc),
            err: Vec::new(alloc),
        }
    }

    pub fn is_like(&self, other: &Ended) -> bool {
        self.status == other.status
            && self.out.as_slice() == other.out.as_slice()
            && self.err.as_slice() == other.err.as_slice()
    }

    /// Tells the status and both texts.
    pub fn tell(&self, report: &mut String) -> Result<(), AllocError> {
        write!(report, "status {}", self.status)?;
        tell_bytes(report, "out", self.out.as_slice())?;
        tell_bytes(report, "err", self.err.as_slice())
    }
}

fn tell_bytes(report: &mut String, name: &str, bytes: &[u8]) -> Result<(), AllocError> {
    match std::str::from_utf8(bytes) {
        Ok(text) => write!(report, ", {name} {text:?}"),
        Err(_) => write!(report, ", {name} {bytes:?}"),
    }
}
