//! What a core sends.

ghost use Rattle.std.specs.Prelude.{◌≡◌, IfOk};
ghost use Rattle.lasp_core.specs.Prelude.{message_at, peer_of};
ghost use Rattle.model_journal.specs.Journal as journal;

use crate::replica_core::Core;
use lasp_wire::Message;
use std::alloc::{AllocError, Global};

impl Core {
    /// The message of the core: its counts, and its sources in their order, each by its name and kind. It copies names and counts, and shares the states' rows.
    pub fn message(&self, alloc: Global) -> Result<Message, AllocError>
        ensures { IfOk result (λ m. m ≡ message_at (journal.graph self.now.frame self.now.entries) (peer_of self.now.frame self.now.entries)) }
    {
        self.recall();
        let graph = self.graph();
        graph.recall();
        lasp_gossip::message_of(alloc, graph, self.states(), self.counts().as_slice())
    }
}
