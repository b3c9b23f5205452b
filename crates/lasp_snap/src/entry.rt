//! What the log of a shelf tells.

use super::version::Version;

/// A version was offered, or it was shown. No value of it is made: the log stands in proofs alone.
pub struct Entry {
    /// The version.
    pub version: Version,
    /// Readers take it; else it may still be refused.
    pub shown: bool,
}
