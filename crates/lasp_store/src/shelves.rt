//! What a feed publishes for readers that never wait.

ghost use Rattle.std.specs.Prelude.{◌≡◌, ◌⊎◌, ◌≤◌, ◌<◌, ◌++◌, ◌∷◌, ◌^◌, [], false, length, All, IfOk, OnErr};
ghost use Rattle.lasp_snap.specs.Views.{IsNewSpy};
ghost use Rattle.lasp_store.specs.Prelude.{IsInTurn, HasEnded, HadTurn, IsSeated, frame_of};
ghost use Rattle.lasp_store.specs.Shelves.{IsVersionAt, IsShelfOf, Adds};

use crate::store::{Feed, Store};
use lasp_core::Core;
use lasp_snap::{Shelf, Spies, Told, Version};
use std::alloc::{AllocError, Global};
use std::sync::{Arc, Wait};

/// The version of a core as it is, at the cost of a list of shares.
fn version_of(alloc: Global, core: &Core) -> Result<Version, AllocError>
    ensures { IfOk result (IsVersionAt core.now.frame core.now.entries) }
{
    core.recall();
    core.graph().recall();
    let states = core.states().try_clone(alloc)?;
    Ok(Version::new(core.journal_len(), Arc::new(alloc, states)?))
}

impl Store {
    fn end_version(
        &self,
        alloc: Global,
        f: &mut Feed,
        core: Box<Core>,
    ) -> Result<Version, AllocError>
        requires turn { IsInTurn self.now f.old core.value }
        ensures turn { HasEnded [] f.old f.new }
        ensures version { IfOk result (IsVersionAt (frame_of f.new) f.new.seen) }
    {
        core.recall();
        let version = version_of(alloc, &core);
        self.end(f, core);
        version
    }

    /// The version after all entries that the feed then has seen, in a turn of its own.
    fn version<R: Wait>(&self, rt: &R, alloc: Global, f: &mut Feed) -> Result<Version, AllocError>
        requires lock { f.old.lock ≡ self.now }
        requires idle { f.old.turn ≡ false }
        ensures turn { HadTurn [] f.old f.new }
        ensures version { IfOk result (IsVersionAt (frame_of f.new) f.new.seen) }
    {
        let core = self.begin(rt, f);
        self.end_version(alloc, f, core)
    }

    /// A shelf whose first version is the one after all entries that the feed then has seen, and so many spies. It may wait for others.
    pub fn open_shelf<R: Wait>(
        &self,
        rt: &R,
        alloc: Global,
        f: &mut Feed,
        spies: u32,
    ) -> Result<(Shelf, Spies), AllocError>
        requires lock { f.old.lock ≡ self.now }
        requires idle { f.old.turn ≡ false }
        requires spies { (1 ≤ spies) × (spies ≤ 16) }
        ensures turn { HadTurn [] f.old f.new }
        ensures first { IfOk result (λ made. Adds (frame_of f.new) f.new.seen [] made.0.published) }
        ensures shelf { IfOk result (λ made. IsShelfOf f.new made.0) }
        ensures count { IfOk result (λ made. length made.1 ≡ spies) }
        ensures spies { IfOk result (λ made. All (IsNewSpy made.0) made.1) }
    {
        match self.version(rt, alloc, f) {
            Ok(first) => Shelf::new(rt, alloc, first, spies),
            Err(e) => Err(e),
        }
    }

    /// Publishes the version after all entries that the feed then has seen, and tells what is published. It may wait for others. After a refusal the version was published or it wasn't, and the shelf is the feed's all the same.
    #[tactic(auto, using(crate::proofs::ShelfLaws::shelves, crate::proofs::TurnLaws::turns))]
    pub fn publish<R: Wait>(
        &self,
        rt: &R,
        alloc: Global,
        f: &mut Feed,
        s: &mut Shelf,
    ) -> Result<Told, AllocError>
        requires lock { f.old.lock ≡ self.now }
        requires idle { f.old.turn ≡ false }
        requires shelf { IsShelfOf f.old s.old }
        requires few { length s.old.published < 2 ^ 63 }
        ensures turn { HadTurn [] f.old f.new }
        ensures told { IfOk result (λ told. told ≡ s.new) }
        ensures ok { IfOk result (λ told. Adds (frame_of f.new) f.new.seen s.old.published s.new.published) }
        ensures err { OnErr result ((s.new.published ≡ s.old.published) ⊎ Adds (frame_of f.new) f.new.seen s.old.published s.new.published) }
        ensures shelf { IsShelfOf f.new s.new }
        ensures same { s.new.shelf ≡ s.old.shelf }
    {
        let version = match self.version(rt, alloc, f) {
            Ok(version) => version,
            Err(e) => return Err(e),
        };
        match s.push(rt, version) {
            Ok(()) => s.tell(),
            Err(e) => Err(e),
        }
    }
}
