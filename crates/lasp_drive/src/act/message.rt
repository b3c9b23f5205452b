//! Messages: a node sends, and a node takes what was sent.

ghost use Rattle.std.specs.Prelude.{◌≡◌, ◌∷◌, [], ◌<◌, ℕ, length, IfOk, IfSome, Some, map, slice_get};
ghost use Rattle.lasp_drive.specs.Prelude.{arc_value, peer_at, peers_of, sent_number, BringsAsMuch, Post, Take, IsReady, MayAct, Passes};

use crate::driver::Driver;
use crate::halt::Halt;
use crate::node::{Letter, Node, NodeStop};
use lasp_gossip::SendRefused;
use lasp_wire::{Counts, Message};
use std::alloc::{AllocError, Global};
use std::sync::Arc;

impl<N: Node> Driver<N> {
    /// Node p sends what it holds, under the next number.
    pub fn post(&mut self, alloc: Global, c: u32, p: u8) -> Result<(), Halt>
        requires { MayAct N.view N.read c self.old (Post p) }
        ensures { Passes N.view N.read N.place c self.old (Post p ∷ []) result self.new }
    {
        self.graph.recall();
        let number = self.network.len() as u32;
        let Letter { whole, tail } = self.nodes[p as usize].letter(alloc, number)?;
        match self.network.send(whole) {
            Ok(_) => {
                self.tails.push(tail)?;
                Ok(())
            }
            Err(SendRefused::NetworkFull) => Err(Halt::NetworkFull(c)),
            Err(SendRefused::Memory) => Err(Halt::Memory),
        }
    }

    /// Node p is given message i, and a part that brings it as much.
    fn hand(
        &mut self,
        alloc: Global,
        c: u32,
        p: u8,
        i: u32,
        message: &Arc<Message>,
        part: &Message,
    ) -> Result<(), Halt>
        requires may { MayAct N.view N.read c self.old (Take p i) }
        requires message { slice_get self.old.network.sent i ≡ Some (arc_value message.now) }
        requires part { BringsAsMuch (arc_value self.old.graph) (peer_at (peers_of (map N.view self.old.nodes.items)) p).contents (arc_value message.now) part.now }
        ensures { Passes N.view N.read N.place c self.old (Take p i ∷ []) result self.new }
    {
        match self.nodes[p as usize].deliver(alloc, i, message, part) {
            Ok(()) => Ok(()),
            Err(NodeStop::TooLarge(x)) => Err(Halt::TooLarge(c, p, x)),
            Err(NodeStop::Memory) => Err(Halt::Memory),
        }
    }

    /// What message i has beyond its sender's message before, where that was told and node p counts all that the message before does.
    fn tail_for(&self, p: u8, i: u32) -> Result<Option<Arc<Message>>, AllocError>
        requires ready { (c : ℕ) × IsReady N.view N.read c self.now }
        requires node { p < length self.now.nodes.items }
        requires message { i < length self.now.network.sent }
        ensures { IfOk result (λ tail. IfSome tail (λ part. BringsAsMuch (arc_value self.now.graph) (peer_at (peers_of (map N.view self.now.nodes.items)) p).contents (sent_number self.now.network.sent i) (arc_value part))) }
    {
        match &self.tails[i as usize] {
            Some(tail) => {
                let before = self.network.receive(tail.before)?;
                if self.nodes[p as usize].has_counted(before.counts()) {
                    Ok(Some(Arc::try_clone(&tail.rows)?))
                } else {
                    Ok(None)
                }
            }
            None => Ok(None),
        }
    }

    /// Node p takes message i. Where the node counts all that the message does, a message without sources goes along, and where it counts all that its sender's message before does, what came since, so that an engine may look at that alone.
    pub fn take(&mut self, alloc: Global, c: u32, p: u8, i: u32) -> Result<(), Halt>
        requires { MayAct N.view N.read c self.old (Take p i) }
        ensures { Passes N.view N.read N.place c self.old (Take p i ∷ []) result self.new }
    {
        let message = self.network.receive(i)?;
        if self.nodes[p as usize].has_counted(message.counts()) {
            let nothing = without_sources(alloc, &message)?;
            return self.hand(alloc, c, p, i, &message, &nothing);
        }
        match self.tail_for(p, i)? {
            Some(tail) => self.hand(alloc, c, p, i, &message, &tail),
            None => self.hand(alloc, c, p, i, &message, &message),
        }
    }
}

/// A message of the same counts without a source.
fn without_sources(alloc: Global, message: &Message) -> Result<Message, AllocError>
    ensures { IfOk result (λ m. m ≡ record { counts = message.now.counts; sources = [] }) }
{
    message.recall();
    let counts = Counts::from_slice(alloc, message.counts().as_slice())?;
    Ok(Message::new(alloc, counts))
}
