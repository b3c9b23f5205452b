//! A spy: one that looks at what is published, and never waits.

ghost use Rattle.std.specs.Prelude.{◌≡◌, ◌⊎◌, ◌<◌, ◌≤◌, ◌^◌, [], Some, IfOk, IsTrue, length, slice_get};
ghost use Rattle.std.specs.Arc.{arc_value};
ghost use mathlib.Core.List.{IsPrefix};
ghost use Rattle.left_right.specs.Sides as sides;
ghost use Rattle.lasp_graph.specs.States.{held_of};
ghost use Rattle.lasp_snap.specs.Version.{AreRising, entries_last, states_last};
ghost use Rattle.lasp_snap.specs.Log.{IsTold, shown_in};
ghost use Rattle.lasp_snap.specs.Rule.{Found, IsShown, published_at};
ghost use Rattle.lasp_snap.specs.Views.{CountsEach, IsNewSpy, IsWriting, Looked, shelf_view};

use super::front::Front;
use super::rule::{Copies, Hearing, Looking, Telling, Watch};
use super::shown::Shown;
use super::told::Told;
use super::version::Version;
use core::mem::replace_with;
use lasp_state::State;
use std::alloc::AllocError;
use std::marker::Model;
use std::sync::Arc;

/// One that looks at a shelf's versions, in a thread of its own if one likes. It never waits for the shelf, nor for other spies. Contracts see what it saw and what it was told of.
#[derive(Drop)]
pub struct Spy {
    watch: Watch,
    /// The last version that it saw.
    kept: Version,
    /// The number of versions up to that one.
    place: u64,
    /// The log as far as it was told.
    heard: Front,
    looks: u64,
}

impl Model for Spy {
    ghost use Rattle.left_right.specs.Sides as sides;
    ghost use Rattle.lasp_snap.specs.Views.{SpyView, coded_spy, spy_view, IsSpy};

    ghost Value = { SpyView };

    ghost coded = { coded_spy };

    ghost view = { λ a. spy_view (sides.view a.watch.place) a.heard a.place a.looks };

    ghost invariant = { λ a. IsSpy a.kept a.place a.heard (sides.view a.watch.place) };
}

impl Spy {
    /// A spy that has seen all that is published, and was told nothing. Its reader learns which shelf it is of before it looks for the first time.
    #[tactic(auto, using(crate::proofs::Watching::watching))]
    pub(crate) fn of(writer: &mut Copies, start: &Front) -> Result<Spy, AllocError>
        requires writing { IsWriting writer.old.desk.shown.value (sides.view writer.old.desk.place) }
        requires start { (start.now.log ≡ []) × (start.now.book ≡ writer.old.desk.shown.value.front.book) }
        ensures same { (writer.new.desk.shown.value ≡ writer.old.desk.shown.value) × (sides.view writer.new.desk.place ≡ sides.view writer.old.desk.place) }
        ensures spy { IfOk result (IsNewSpy (shelf_view writer.old.desk.shown.value)) }
    {
        let shown = writer.published();
        let (kept, place) = (shown.version.again()?, shown.published);
        let mut watch = writer.factory().reader()?;
        watch.learn::<Hearing>(writer.tell::<Telling>());
        Ok(Spy {
            watch,
            kept,
            place,
            heard: start.again(),
            looks: 0,
        })
    }

    /// Recalls, at no cost, that each version that it saw is later than the one before.
    #[tactic(auto, using(crate::proofs::Watching::watching))]
    pub fn recall(&self)
        ensures { AreRising self.now.seen }
    {
        let _kept = &self.kept;
    }

    /// The number of variables whose states it may look at.
    pub fn vars(&self) -> u8
        ensures { result ≡ length (states_last self.now.seen) }
    {
        self.kept.states().len() as u8
    }

    /// The number of entries after which the version that it saw last has its states.
    pub fn entries(&self) -> u64
        ensures { result ≡ entries_last self.now.seen }
    {
        self.kept.n()
    }

    /// The number of versions that it saw.
    #[tactic(auto, using(crate::proofs::Watching::watching))]
    pub fn place(&self) -> u64
        ensures { result ≡ length self.now.seen }
    {
        self.place
    }

    /// The number of readings that it took.
    pub fn looks(&self) -> u64
        ensures { result ≡ self.now.looks }
    {
        self.looks
    }

    /// Takes in what its shelf told. From now on each reading that it takes has at least that. It takes no memory.
    #[tactic(auto, using(crate::proofs::Logs::logs, crate::proofs::Watching::watching))]
    pub fn learn(&mut self, told: Told)
        requires shelf { told.shelf ≡ self.old.shelf }
        ensures heard { IsPrefix told.published self.new.heard }
        ensures before { IsPrefix self.old.heard self.new.heard }
        ensures one { (self.new.heard ≡ self.old.heard) ⊎ (self.new.heard ≡ told.published) }
        ensures same { self.new ≡ record self.old { heard = self.new.heard } }
    {
        let Told { front } = told;
        self.heard.compare(&front);
        if self.heard.len() < front.len() {
            self.heard = front;
        }
    }

    /// The state of a variable in the version that it then saw last: in the one that was published last where a reading was taken, else in the one that it saw before. It waits for nobody, and where it answers, a reading that it was given is counted. After a refusal it may have seen more, too; a reading whose share was refused is neither taken nor counted.
    #[tactic(auto, using(crate::proofs::Watching::watching))]
    pub fn peek(&mut self, var: u8) -> Result<Arc<State>, AllocError>
        requires var { var < length (states_last self.old.seen) }
        requires few { self.old.looks < 2 ^ 63 }
        ensures looked { Looked self.old self.new }
        ensures counted { IfOk result (λ _. CountsEach self.old self.new) }
        ensures state { IfOk result (λ s. slice_get (states_last self.new.seen) var ≡ Some (held_of (arc_value s))) }
    {
        match self.look() {
            Ok(()) => Arc::try_clone(self.kept.states().at(u64::from(var))),
            Err(e) => Err(e),
        }
    }

    /// Takes what is published, where the shelf is there. A reading that hadn't all that this spy was told would be refused, but each has that which comes after the telling.
    #[tactic(auto, using(crate::proofs::Watching::watching))]
    fn look(&mut self) -> Result<(), AllocError>
        requires few { self.old.looks < 2 ^ 63 }
        ensures looked { Looked self.old self.new }
        ensures counted { IfOk result (λ _. CountsEach self.old self.new) }
        ensures more { length (states_last self.old.seen) ≤ length (states_last self.new.seen) }
    {
        let found = replace_with(
            &mut self.watch,
            (),
            |watch: Watch, _none: ()| -> (Watch, Option<Result<Shown, AllocError>>)
                ensures { Found (sides.view watch.place) result.1 (sides.view result.0.place) }
            { find(watch) },
        );
        match found {
            None => Ok(()),
            Some(Err(e)) => Err(e),
            Some(Ok(shown)) => {
                if !is_as_new(&shown, &self.heard) {
                    return Err(AllocError);
                }
                let Shown {
                    version,
                    published,
                    front: _front,
                } = shown;
                self.kept = version;
                self.place = published;
                self.looks += 1;
                Ok(())
            }
        }
    }
}

/// What is shown, by one reading: none where the shelf is closed, so that none is given, and an error where its share was refused.
#[tactic(auto, using(crate::proofs::Watching::watching))]
fn find(watch: Watch) -> (Watch, Option<Result<Shown, AllocError>>)
    ensures { Found (sides.view watch.place) result.1 (sides.view result.0.place) }
{
    match watch.enter_as::<Looking>() {
        Ok(reading) => {
            let shown = reading.get().again();
            (reading.leave(), Some(shown))
        }
        Err(watch) => (watch, None),
    }
}

/// All that was told is in what is shown, as the log tells.
#[tactic(auto, using(crate::proofs::Logs::logs))]
fn is_as_new(shown: &Shown, heard: &Front) -> bool
    requires shelf { shown.now.front.book ≡ heard.now.book }
    requires shown { IsShown shown.now }
    requires told { IsTold heard.now.log }
    ensures { IsTrue result → IsPrefix (shown_in heard.now.log) (published_at shown.now) }
{
    heard.compare(&shown.front);
    heard.len().saturating_sub(1) <= shown.front.len()
}
