//! What a derived variable last read.

use lasp_graph::Inputs;

/// What a process last read, and how many jobs of it are out.
#[derive(Drop)]
pub struct Process {
    /// How many entries stood when it last read.
    pub n: u64,
    /// Its inputs as they were then, from the first job on whose result was taken in: who never makes jobs doesn't pay for them.
    pub base: Option<Inputs>,
    /// How many jobs of it are out.
    pub busy: u64,
}
