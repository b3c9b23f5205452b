//! A store and its passes.

ghost use Rattle.std.specs.Prelude.{◌≡◌, ◌≢◌, ◌⊎◌, ◌<◌, ◌≤◌, ◌++◌, true, false, All, length, Some, IfOk, IfSome, IfNone, IsNone, IsOkAnd};
ghost use Rattle.lasp_store.specs.Prelude.{arc_value, MayMake, made_by, added, SomeOut, peer_of, first_pass, new_pass, after_look, after_split, after_rejoin, IsSeated, frame_of, graph_seen};
ghost use mathlib.Core.List.{IsPrefix};

use crate::kept::KeptCore;
use lasp_core::Core;
use lasp_graph::Graph;
use lasp_histlock::{HistLock, Pass};
use std::alloc::{AllocError, Global};
use std::marker::Model;
use std::sync::Arc;

/// What one caller knows of one store, and with which it makes every call there.
pub type Hand = Pass<KeptCore>;

/// The pass that comes with a store, with number 0. With it alone are entries made that aren't results of jobs.
pub type Feed = Pass<KeptCore>;

/// A replica core that several threads change, one at a time. Contracts see it as which lock it is.
#[derive(Drop)]
pub struct Store {
    pub(crate) lock: HistLock<KeptCore>,
}

impl Model for Store {
    ghost use Rattle.lasp_histlock.specs.Names.{LockId};

    ghost Value = { LockId };

    ghost view = { λ s. s.lock };
}

impl Store {
    /// A store of replica `me` of so many nodes, at most 8, to which nothing has happened, and its feed.
    pub fn new(
        alloc: Global,
        graph: Arc<Graph>,
        me: u8,
        nodes: u8,
    ) -> Result<(Store, Feed), AllocError>
        requires member { me < nodes }
        requires few { nodes ≤ 8 }
        ensures feed { IfOk result (λ made. made.1 ≡ first_pass made.0 (record { opening = arc_value graph; replica = me; nodes = nodes })) }
        ensures seated { IfOk result (λ made. IsSeated made.0 made.1) }
    {
        let core = Core::new(alloc, graph, me, nodes)?;
        core.recall();
        let core = Box::new(alloc, core)?;
        let (lock, feed) = HistLock::new(alloc, KeptCore { core })?;
        Ok((Store { lock }, feed))
    }

    /// A new hand, with the next number, which has seen what the feed has. It takes no memory, so it always answers `Ok`, and it never waits.
    pub fn split_hand(&self, f: &mut Feed) -> Result<Hand, AllocError>
        requires lock { f.old.lock ≡ self.now }
        requires idle { f.old.turn ≡ false }
        requires first { f.old.number ≡ 0 }
        requires room { f.old.made < 4294967295 }
        ensures hand { IsOkAnd result (λ hand. hand ≡ new_pass f.old) }
        ensures seated { IsSeated self.now f.old → IsOkAnd result (IsSeated self.now) }
        ensures pass { f.new ≡ after_split f.old }
    {
        self.lock.split(f)
    }

    /// Takes a hand back into the feed, which then has seen what either has. It never waits. A hand that is dropped instead stays out for good, which hinders nobody; its entries stay.
    pub fn rejoin(&self, f: &mut Feed, h: Hand)
        requires lock { (f.old.lock ≡ self.now) × (h.lock ≡ self.now) }
        requires first { f.old.number ≡ 0 }
        ensures pass { f.new ≡ after_rejoin h f.old }
        ensures seen { IsPrefix f.old.seen f.new.seen × IsPrefix h.seen f.new.seen }
        ensures theirs { made_by h.number f.new.seen ≡ h.own }
        ensures frame { h.frame ≡ f.old.frame }
        ensures seated { IsSeated self.now f.old → IsSeated self.now h → IsSeated self.now f.new }
        ensures graph { graph_seen f.new ≡ graph_seen f.old }
        ensures peer { IsSeated self.now f.old → IsSeated self.now h → peer_of (frame_of f.new) f.new.seen ≡ peer_of (frame_of f.old) f.old.seen }
    {
        f.known();
        self.lock.rejoin(f, h);
        f.known();
    }

    /// How many entries the journal has, at this call's one load. It never waits, whoever has the core.
    pub fn length(&self, h: &mut Hand) -> u64
        requires lock { h.old.lock ≡ self.now }
        requires idle { h.old.turn ≡ false }
        ensures pass { h.new ≡ after_look result h.old }
        ensures seen { length h.old.seen ≤ result }
        ensures told { h.old.told ≤ result }
    {
        self.lock.length(h)
    }

    /// Ends the store and answers its core. It never waits: it makes at most one exchange, and answers `None` where that saw the core in another's hands, and where the feed was dropped in a turn.
    pub fn close(self, f: Feed) -> Option<Core>
        requires lock { f.lock ≡ self }
        requires first { f.number ≡ 0 }
        ensures turn { f.turn ≡ true → IsNone result }
        ensures none { IfNone result ((f.turn ≡ true) ⊎ SomeOut f.made f.back) }
        ensures list { IfSome result (λ core. core.entries ≡ f.seen ++ added f.seen core.entries) }
        ensures others { IfSome result (λ core. All (λ e. e.by ≢ 0) (added f.seen core.entries)) }
        ensures allowed { IfSome result (λ core. All (λ e. MayMake e.by e.act) core.entries) }
        ensures frame { IfSome result (λ core. Some core.frame ≡ f.frame) }
    {
        let KeptCore { core } = self.lock.close(f)?;
        Some(Box::into_inner(core))
    }
}
