//! Declarations.

ghost use Rattle.std.specs.Prelude.{◌≡◌, ◌<◌, ◌++◌, ◌∷◌, [], OnOk, OnErr, length};
ghost use Rattle.lasp_replica.specs.Prelude.{arc_value, variable_limit, IsNext, entry, decl_of, IsReplica, Grows, Stays};
ghost use Rattle.model_journal.specs.Entry as model;

use super::Replica;
use super::least::{fresh_process, least_state};
use crate::History;
use crate::entry::{Act, Entry};
use lasp_graph::Decl;
use std::alloc::AllocError;
use std::sync::Arc;

impl Replica {
    /// Declares a variable behind the others. All memory is taken before anything changes.
    pub fn extend(&mut self, by: u64, decl: &Decl) -> Result<(), AllocError>
        requires replica { IsReplica self.old }
        requires room { length (arc_value self.old.graph) < variable_limit }
        requires next { IsNext (arc_value self.old.graph) (decl_of decl.now) }
        ensures ok { OnOk result (Grows (entry by (model.Extend (decl_of decl.now))) self.old self.new) }
        ensures err { OnErr result (Stays self.old self.new) }
    {
        let alloc = self.allocator();
        let own = decl.try_clone()?;
        let graph = Arc::new(alloc, self.graph.with(alloc, decl)?)?;
        let state = least_state(alloc, &graph, self.graph.len(), self.counts.len() as u8)?;
        let process = fresh_process(&decl.kind);
        self.histories.reserve(1)?;
        self.processes.reserve(1)?;
        self.journal.reserve(1)?;
        self.states.push(state)?;
        let _ = self.histories.push(History::new(alloc));
        let _ = self.processes.push(process);
        self.graph = graph;
        let _ = self.journal.push(Entry {
            by,
            what: Act::Extend(own),
        });
        Ok(())
    }
}
