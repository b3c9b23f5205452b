//! Messages that travel as deltas: a node sends, and a node takes what was sent.

ghost use Rattle.std.specs.Prelude.{◌≡◌, ◌<◌, ◌≤◌, ◌+◌, ◌∷◌, [], length, IfOk, if◌then◌else◌};
ghost use Rattle.std.specs.Arc.{arc_value};
ghost use Rattle.model_world.specs.World.{Post, Take};
ghost use Rattle.model_deltas.specs.Delta.{delta_of};
ghost use Rattle.model_deltas.specs.Before.{IsBefore};
ghost use Rattle.model_deltas.specs.Gossip.{nothing_told, last_told};
ghost use Rattle.lasp_delta.specs.Since.{LeadsFrom};
ghost use Rattle.lasp_delta.specs.Seen.{delta_seen, gossip_of, IsUnderWay};
ghost use Rattle.lasp_delta.specs.Acts.{Goes};

use crate::run::deltas::DeltaRun;
use crate::run::hand::bring;
use crate::run::letter::Letter;
use crate::{Delta, delta_of, delta_since};
use lasp_drive::{Halt, Node, Tail};
use lasp_wire::{Counts, Message};
use std::alloc::{AllocError, Global};
use std::sync::Arc;

/// What a node told before it sent anything: no updates and no sources.
fn nothing_told(alloc: Global, nodes: u64) -> Result<Message, AllocError>
    requires some { 1 ≤ nodes }
    requires few { nodes ≤ 8 }
    ensures { IfOk result (λ m. m ≡ nothing_told nodes) }
{
    let mut counts = Counts::new(alloc);
    for _ in 0..nodes {
        counts.push(0)?;
    }
    Ok(Message::new(alloc, counts))
}

/// One more; nothing is counted so often that there is none.
fn one_more(count: u64) -> Result<u64, AllocError>
    ensures { IfOk result (λ more. more ≡ count + 1) }
{
    match count.checked_add(1) {
        Some(more) => Ok(more),
        None => Err(AllocError),
    }
}

/// One more where something happened, else as many.
fn one_more_if(count: u64, happened: bool) -> Result<u64, AllocError>
    ensures { IfOk result (λ more. more ≡ count + (if happened then 1 else 0)) }
{
    if happened { one_more(count) } else { Ok(count) }
}

/// What changed from what a node told last, which has this number if it was sent, to the message that it sent now. Where that is kept with what came since the same message, it is made of this.
fn changes(
    alloc: Global,
    before: &Message,
    last: Option<u32>,
    sent: &Message,
    tail: &Option<Tail>,
) -> Result<Delta, AllocError>
    requires earlier { IsBefore before.now sent.now }
    requires kept { LeadsFrom last before.now tail.now sent.now }
    ensures { IfOk result (λ delta. delta ≡ delta_of before.now sent.now) }
{
    match tail {
        Some(tail) if last == Some(tail.before) => delta_since(alloc, before, &tail.rows),
        _ => delta_of(alloc, before, sent),
    }
}

impl<N: Node> DeltaRun<N> {
    /// What node p told last.
    fn last_told(&self, alloc: Global, c: u32, p: u8) -> Result<Arc<Message>, AllocError>
        requires under_way { IsUnderWay c (delta_seen N.view N.read self.now) }
        requires node { p < length self.now.driver.nodes.items }
        ensures { IfOk result (λ m. arc_value m ≡ last_told (gossip_of (delta_seen N.view N.read self.now)) p) }
    {
        let _number = c;
        match self.last[p as usize] {
            Some(i) => self.driver.network.receive(i),
            None => {
                let message = nothing_told(alloc, self.driver.nodes.len() as u64)?;
                Ok(Arc::new(alloc, message)?)
            }
        }
    }

    /// Node p sends what it holds, under the next number: what it told last goes before it, and what changed since then travels.
    pub(crate) fn post(&mut self, alloc: Global, c: u32, p: u8) -> Result<(), Halt>
        requires under_way { IsUnderWay c (delta_seen N.view N.read self.old) }
        requires node { p < length self.old.driver.nodes.items }
        requires number { c ≤ 100000 }
        ensures { Goes c c (delta_seen N.view N.read self.old) (Post p ∷ []) result (delta_seen N.view N.read self.new) }
    {
        let before = self.last_told(alloc, c, p)?;
        before.recall();
        let number = self.driver.network.len() as u32;
        match self.driver.post(alloc, c, p) {
            Ok(()) => {}
            Err(halt) => return Err(halt),
        }
        let sent = self.driver.network.receive(number)?;
        sent.recall();
        let tail = &self.driver.tails[number as usize];
        let delta = changes(alloc, &before, self.last[p as usize], &sent, tail)?;
        self.letters.push(Letter::of(alloc, &delta)?)?;
        self.last[p as usize] = Some(number);
        Ok(())
    }

    /// Node p takes message i by its delta.
    pub(crate) fn take(&mut self, alloc: Global, c: u32, p: u8, i: u32) -> Result<(), Halt>
        requires under_way { IsUnderWay c (delta_seen N.view N.read self.old) }
        requires node { p < length self.old.driver.nodes.items }
        requires message { i < length self.old.driver.network.sent }
        requires number { c ≤ 100000 }
        ensures { Goes c c (delta_seen N.view N.read self.old) (Take p i ∷ []) result (delta_seen N.view N.read self.new) }
    {
        let deliveries = one_more(self.deliveries)?;
        let delta = self.letters[i as usize].open(alloc)?;
        let gap = match bring(&mut self.driver, alloc, c, p, i, &delta) {
            Ok(gap) => gap,
            Err(halt) => return Err(halt),
        };
        let gaps = one_more_if(self.gaps, gap)?;
        self.deliveries = deliveries;
        self.gaps = gaps;
        Ok(())
    }
}
