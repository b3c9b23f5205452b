//! What a worker goes through inside of each job.

/// What a worker calls between taking a job and evaluating it, while others may have the replica. It changes nothing that a contract sees, so that a test can hold a worker in its job.
pub trait Gate {
    /// The worker with this number has a job of this variable of this node's replica.
    fn pass(&self, worker: u32, node: u8, var: u8);

    /// Whether the worker may do its job of this variable. Where it may not, it gives it back and asks again later; where it may, it tells when it is through.
    fn admits(&self, _worker: u32, _node: u8, _var: u8) -> bool {
        true
    }

    /// The worker is through with its job of this variable.
    fn leaves(&self, _worker: u32, _node: u8, _var: u8) {}

    /// Whether a worker that wasn't admitted to this variable would still not be. It asks for no job before.
    fn keeps_out(&self, _worker: u32, _node: u8, _var: u8) -> bool {
        false
    }
}

/// A gate that holds nobody.
#[derive(Drop)]
pub struct NoGate;

impl Gate for NoGate {
    fn pass(&self, _worker: u32, _node: u8, _var: u8) {}
}
