//! A job that nobody does any more.

/// What is left of a job that is given up: it shares nothing with the replica, so that whoever has that can write in place. It is to be given back to who made the job, so it can't be dropped.
pub struct GivenUp {
    /// The variable.
    pub var: u8,
}
