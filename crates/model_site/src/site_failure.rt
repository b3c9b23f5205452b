//! Why a site writes no state.

use crate::site_refusal::SiteRefusal;

/// A refusal, or a fault of the machine that it runs on.
#[derive(Drop)]
pub enum SiteFailure {
    /// The words and files are refused.
    Refused(SiteRefusal),
    /// This file, named by its place among the words, couldn't be read.
    ReadFault(usize),
    /// No memory was left.
    Memory,
}
