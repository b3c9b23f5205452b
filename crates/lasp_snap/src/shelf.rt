//! The shelf: the one that publishes.

ghost use Rattle.std.specs.Prelude.{◌≡◌, ◌<◌, ◌≤◌, ◌+◌, ◌++◌, ◌∷◌, ◌^◌, [], OnOk, OnErr, IfOk, All, length};
ghost use Rattle.left_right.specs.Sides as sides;
ghost use Rattle.lasp_snap.specs.Version.{AreRising, IsSmall, MayFollow, last_of};
ghost use Rattle.lasp_snap.specs.Rule.{Follows, Showed};
ghost use Rattle.lasp_snap.specs.Views.{IsNewSpy};

use super::front::{Offering, new_log};
use super::journal::Journal;
use super::rule::{Copies, Publishing};
use super::shown::Shown;
use super::spies::Spies;
use super::told::Told;
use super::version::Version;
use core::mem::replace_with;
use left_right::writer::Writer;
use std::alloc::{AllocError, Global};
use std::marker::Model;
use std::sync::Wait;

/// What publishes versions. Contracts see which shelf it is, and all that it published. It isn't `Drop`: end it by `close`.
pub struct Shelf {
    writer: Copies,
    journal: Journal,
}

impl Model for Shelf {
    ghost use Rattle.left_right.specs.Sides as sides;
    ghost use Rattle.lasp_snap.specs.Views.{ShelfView, coded_shelf, shelf_view, IsJournalOf, IsWriting};

    ghost Value = { ShelfView };

    ghost coded = { coded_shelf };

    ghost view = { λ a. shelf_view a.writer.desk.shown.value };

    ghost invariant = { λ a. IsWriting a.writer.desk.shown.value (sides.view a.writer.desk.place) × IsJournalOf a.writer.desk.shown.value a.journal.head a.journal.front a.journal.told };
}

impl Shelf {
    /// A shelf that has published one version, and so many spies, each of which has seen it. All places of readers are taken here. It waits for nobody, since nobody reads yet.
    #[tactic(auto, using(crate::proofs::Logs::logs))]
    pub fn new<R: Wait>(
        rt: &R,
        alloc: Global,
        first: Version,
        spies: u32,
    ) -> Result<(Shelf, Spies), AllocError>
        requires spies { (1 ≤ spies) × (spies ≤ 16) }
        requires small { IsSmall first }
        ensures published { IfOk result (λ p. p.0.published ≡ first ∷ []) }
        ensures count { IfOk result (λ p. length p.1 ≡ spies) }
        ensures spies { IfOk result (λ p. All (IsNewSpy p.0) p.1) }
    {
        let (head, start) = new_log();
        let front = match start.after::<Offering>(&head, &first) {
            Some(front) => front,
            None => return Err(AllocError),
        };
        let journal = Journal {
            head,
            front: front.again(),
            told: None,
        };
        let shown = Shown {
            version: first,
            published: 1,
            front,
        };
        let (one, two) = (shown.again()?, shown.again()?);
        let writer = Writer::new(alloc, one, two, spies as usize)?;
        // The writer knows nothing until it publishes, so the first version is shown once more.
        let (mut writer, published) = publish(writer, rt, shown);
        if let Err(e) = published {
            drop(writer.take(rt));
            return Err(e);
        }
        match Spies::of(alloc, &mut writer, &start, spies) {
            Ok(all) => Ok((Shelf { writer, journal }, all)),
            Err(e) => {
                drop(writer.take(rt));
                Err(e)
            }
        }
    }

    /// Publishes a version. It waits for spies that are still taking the version before the last one, which takes them a few steps. Where memory is refused nothing is published, and a later version is published without this one.
    #[tactic(auto, using(crate::proofs::Logs::logs))]
    pub fn push<R: Wait>(&mut self, rt: &R, version: Version) -> Result<(), AllocError>
        requires later { MayFollow (last_of self.old.published) version }
        requires small { IsSmall version }
        requires few { length self.old.published < 2 ^ 63 }
        ensures ok { OnOk result (self.new.published ≡ self.old.published ++ version ∷ []) }
        ensures err { OnErr result (self.new.published ≡ self.old.published) }
        ensures shelf { self.new.shelf ≡ self.old.shelf }
    {
        let published = self.place() + 1;
        let front = match self.journal.offer(self.writer.published(), &version) {
            Ok(front) => front,
            Err(e) => return Err(e),
        };
        let next = Shown {
            version,
            published,
            front,
        };
        let answer = replace_with(
            &mut self.writer,
            rt,
            |writer: Copies, rt: &R| -> (Copies, Result<(), AllocError>)
                requires { Follows writer.desk.shown.value next }
                ensures { Showed result.1 next writer.desk.shown.value (sides.view writer.desk.place) result.0.desk.shown.value (sides.view result.0.desk.place) }
            { publish(writer, rt, next) },
        );
        if answer.is_ok() {
            self.journal.told = None;
        }
        answer
    }

    /// Recalls, at no cost, that each version that was published is later than the one before.
    pub fn recall(&self)
        ensures { AreRising self.now.published }
    {
        let _writer = &self.writer;
    }

    /// The number of versions that were published.
    pub fn place(&self) -> u64
        ensures { result ≡ length self.now.published }
    {
        self.writer.published().published
    }

    /// Tells of all that was published, for spies of this shelf to learn. It takes no memory.
    pub fn tell(&mut self) -> Result<Told, AllocError>
        ensures told { IfOk result (λ t. t ≡ self.old) }
        ensures same { self.new ≡ self.old }
    {
        match self.journal.tell(self.writer.published()) {
            Ok(front) => Ok(Told { front }),
            Err(e) => Err(e),
        }
    }

    /// Ends the shelf. Spies go on with what they saw.
    pub fn close<R: Wait>(self, rt: &R) {
        let Shelf {
            writer,
            journal: _journal,
        } = self;
        drop(writer.take(rt));
    }
}

/// Shows what comes next. Where memory is refused, what was shown is shown.
fn publish<R: Wait>(writer: Copies, rt: &R, next: Shown) -> (Copies, Result<(), AllocError>)
    requires { Follows writer.desk.shown.value next }
    ensures { Showed result.1 next writer.desk.shown.value (sides.view writer.desk.place) result.0.desk.shown.value (sides.view result.0.desk.place) }
{
    let mut writer = writer;
    if writer.append(next).is_err() {
        return (writer, Err(AllocError));
    }
    writer.publish_as::<Publishing, R>(rt)
}
