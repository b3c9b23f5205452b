//! What came to a core since its first entries, as a message.

ghost use Rattle.std.specs.Prelude.{◌≤◌, IfOk, length};
ghost use Rattle.lasp_core.specs.Prelude.{IsTailSince};

use crate::replica_core::Core;
use lasp_wire::Message;
use std::alloc::{AllocError, Global};

impl Core {
    /// The message of what came since the journal's first n entries: of each source that is a set it has the rows alone that changed. It costs an insertion for each of these rows, which are shared, and copies names and counts.
    pub fn tail_since(&self, alloc: Global, n: u64) -> Result<Message, AllocError>
        requires { n ≤ length self.now.entries }
        ensures { IfOk result (IsTailSince self.now.frame self.now.entries n) }
    {
        self.recall();
        let graph = self.graph();
        graph.recall();
        let states = self.states_since(n)?;
        lasp_gossip::message_of(alloc, graph, &states, self.counts().as_slice())
    }
}
