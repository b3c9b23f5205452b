//! A replica: its journal, and beside it what follows from it: the states, their histories, and what each process last read.

ghost use Rattle.std.specs.Prelude.{◌≡◌, ◌<◌, ◌≤◌, [], IfOk, length, replicate};
ghost use Rattle.lasp_replica.specs.Prelude.{arc_value, frame_of, entries_of, busy_of, IsReplica};

mod deliver;
mod extend;
mod finish;
mod known;
mod least;
mod settle;
mod settled;
mod since;
mod sizes;
mod take;
mod update;
mod upkeep;

use crate::History;
use crate::entry::Entry;
use crate::process::Process;
use lasp_graph::{Graph, States};
use lasp_wire::Counts;
use least::{fresh_histories, fresh_processes, fresh_states, zeros};
use std::alloc::{AllocError, Global};
use std::sync::Arc;

/// The most rows or elements that a variable may have.
const MOST_ROWS: u64 = 65_536;

/// The most updates of one replica.
const MOST_UPDATES: u64 = 100_000;

/// A replica.
#[derive(Drop)]
pub struct Replica {
    pub graph: Arc<Graph>,
    pub opening: usize,
    pub me: u8,
    pub counts: Counts,
    pub states: States,
    pub histories: Vec<History>,
    pub processes: Vec<Option<Process>>,
    pub journal: Vec<Entry>,
}

impl Replica {
    /// A replica to which nothing has happened.
    pub fn new(alloc: Global, graph: Arc<Graph>, me: u8, nodes: u8) -> Result<Replica, AllocError>
        requires member { me < nodes }
        requires few { nodes ≤ 8 }
        ensures sound { IfOk result IsReplica }
        ensures frame { IfOk result (λ r. frame_of r ≡ record { opening = arc_value graph; replica = me; nodes = nodes }) }
        ensures entries { IfOk result (λ r. entries_of r ≡ []) }
        ensures busy { IfOk result (λ r. busy_of r ≡ replicate (length (arc_value graph)) 0) }
    {
        graph.recall();
        let opening = graph.len() as usize;
        let counts = zeros(alloc, nodes)?;
        let states = fresh_states(alloc, &graph, nodes)?;
        let histories = fresh_histories(alloc, &graph)?;
        let processes = fresh_processes(alloc, &graph)?;
        Ok(Replica {
            graph,
            opening,
            me,
            counts,
            states,
            histories,
            processes,
            journal: Vec::new(alloc),
        })
    }

    /// The allocator of all that it keeps.
    pub fn allocator(&self) -> Global {
        *self.journal.allocator()
    }
}
