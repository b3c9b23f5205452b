//! What a store sends.

ghost use Rattle.std.specs.Prelude.{◌≡◌, [], false, IfOk};
ghost use Rattle.lasp_store.specs.Prelude.{message_at, peer_of, HadTurn, IsInTurn, HasEnded, frame_of, graph_seen};

use crate::store::{Feed, Store};
use lasp_core::Core;
use lasp_wire::Message;
use std::alloc::{AllocError, Global};
use std::sync::Wait;

impl Store {
    fn end_message(
        &self,
        alloc: Global,
        f: &mut Feed,
        core: Box<Core>,
    ) -> Result<Message, AllocError>
        requires turn { IsInTurn self.now f.old core.value }
        ensures turn { HasEnded [] f.old f.new }
        ensures message { IfOk result (λ m. m ≡ message_at (graph_seen f.new) (peer_of (frame_of f.new) f.new.seen)) }
    {
        core.recall();
        let message = core.message(alloc);
        self.end(f, core);
        message
    }

    /// The message of the replica: its counts and its sources. It copies names and counts, and shares the states' rows. It may wait for others.
    pub fn message<R: Wait>(
        &self,
        rt: &R,
        alloc: Global,
        f: &mut Feed,
    ) -> Result<Message, AllocError>
        requires lock { f.old.lock ≡ self.now }
        requires idle { f.old.turn ≡ false }
        requires first { f.old.number ≡ 0 }
        ensures turn { HadTurn [] f.old f.new }
        ensures message { IfOk result (λ m. m ≡ message_at (graph_seen f.new) (peer_of (frame_of f.new) f.new.seen)) }
    {
        let core = self.begin(rt, f);
        self.end_message(alloc, f, core)
    }
}
