//! The replicas that a worker goes round.

ghost use Rattle.std.specs.Prelude.{◌≡◌, ◌++◌, ◌∷◌, [], length, IfErr, IfSome, IfNone, OnOk, OnErr};
ghost use Rattle.lasp_workers.specs.Replicas.{pairs_of};

use std::alloc::{AllocError, Global};

/// A node's replica, whether the worker has left it in this call, and the variable to which it wasn't admitted.
#[derive(Drop)]
pub struct Replica<J> {
    pub(crate) node: u8,
    pub(crate) jobs: J,
    pub(crate) is_left: bool,
    pub(crate) waits_for: Option<u8>,
}

/// The replicas of some nodes, each with the node's number. Contracts see the list of these pairs.
#[derive(Drop)]
pub struct Replicas<J> {
    pub(crate) items: Vec<Replica<J>>,
}

impl<J> Replicas<J> {
    /// No replicas.
    pub fn new(alloc: Global) -> Replicas<J>
        ensures { pairs_of result ≡ [] }
    {
        Replicas {
            items: Vec::new(alloc),
        }
    }

    /// The number of replicas.
    pub fn len(&self) -> u64
        ensures { result ≡ length (pairs_of self.now) }
    {
        self.items.len() as u64
    }

    /// Appends a node's replica. Where there is no memory for it, it comes back and the list is as before.
    pub fn push(&mut self, node: u8, jobs: J) -> Result<(), (J, AllocError)>
        ensures ok { OnOk result (pairs_of self.new ≡ pairs_of self.old ++ (node, jobs) ∷ []) }
        ensures err { OnErr result (pairs_of self.new ≡ pairs_of self.old) }
        ensures back { IfErr result (λ e. e.0 ≡ jobs) }
    {
        match self.items.push(Replica {
            node,
            jobs,
            is_left: false,
            waits_for: None,
        }) {
            Ok(()) => Ok(()),
            Err(refused) => {
                let Replica {
                    node: _,
                    jobs,
                    is_left: _,
                    waits_for: _,
                } = refused.value;
                Err((jobs, AllocError))
            }
        }
    }

    /// Takes the last pair out; none where the list is empty.
    pub fn pop(&mut self) -> Option<(u8, J)>
        ensures some { IfSome result (λ pair. pairs_of self.old ≡ pairs_of self.new ++ pair ∷ []) }
        ensures none { IfNone result ((pairs_of self.old ≡ []) × (pairs_of self.new ≡ [])) }
    {
        match self.items.pop() {
            Some(
                Replica {
                    node,
                    jobs,
                    is_left: _,
                    waits_for: _,
                },
            ) => Some((node, jobs)),
            None => None,
        }
    }
}
