//! The forms of a command line that several threads run.

/// A form for several threads, with what its words tell. On one thread it is answered with usage.
#[derive(Clone, Copy, PartialEq, Eq, Debug)]
pub enum Threaded {
    /// `run GRAPH SCRIPT WORKERS`, WORKERS being 1 to 16
    Run(u8),
    /// `trace GRAPH SCRIPT WORKERS`
    Trace(u8),
    /// `live GRAPH SCRIPT WORKERS`
    Live(u8),
    /// `load SEED COUNT WORKERS`, SEED being 0 to 2,147,483,647 and COUNT 1 to 20,000
    Load(u32, u32, u8),
}
