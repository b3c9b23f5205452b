//! The log as its shelf keeps it.

ghost use Rattle.std.specs.Prelude.{◌≡◌, Some, IfOk};
ghost use Rattle.lasp_snap.specs.Log.{EndsOffering};
ghost use Rattle.lasp_snap.specs.Views.{IsJournalOf, IsToldOf, IsOfferOf};

use super::front::{Confirming, Front, Head, Offering};
use super::shown::Shown;
use super::version::Version;
use std::alloc::AllocError;

/// The log, to whose end the shelf adds, and how much of it tells of what is shown.
#[derive(Drop)]
pub(crate) struct Journal {
    pub(crate) head: Head,
    /// The log up to its end.
    pub(crate) front: Front,
    /// The log up to where it tells that the last version is shown, if it does.
    pub(crate) told: Option<Front>,
}

impl Journal {
    /// The log up to where it tells that what is shown is shown. It is refused only where the log went on elsewhere, which it never does.
    #[tactic(auto, using(crate::proofs::Journals::journals))]
    pub(crate) fn tell(&mut self, shown: &Shown) -> Result<Front, AllocError>
        requires journal { IsJournalOf shown.now self.old.head self.old.front self.old.told }
        requires offer { EndsOffering shown.now.version shown.now.front.log }
        ensures journal { IsJournalOf shown.now self.new.head self.new.front self.new.told }
        ensures told { IfOk result (λ f. (self.new.told ≡ Some f) × IsToldOf shown.now f) }
    {
        if let Some(told) = &self.told {
            return Ok(told.again());
        }
        match self.front.after::<Confirming>(&self.head, &shown.version) {
            Some(front) => {
                self.told = Some(front.again());
                self.front = front.again();
                Ok(front)
            }
            None => Err(AllocError),
        }
    }

    /// The log with the offer of a version at its end. It is refused as `tell` is.
    #[tactic(auto, using(crate::proofs::Journals::journals))]
    pub(crate) fn offer(&mut self, shown: &Shown, version: &Version) -> Result<Front, AllocError>
        requires journal { IsJournalOf shown.now self.old.head self.old.front self.old.told }
        requires offer { EndsOffering shown.now.version shown.now.front.log }
        ensures journal { IsJournalOf shown.now self.new.head self.new.front self.new.told }
        ensures front { IfOk result (λ f. (self.new.front ≡ f) × IsOfferOf shown.now version.now f) }
    {
        self.tell(shown)?;
        match self.front.after::<Offering>(&self.head, version) {
            Some(front) => {
                self.front = front.again();
                Ok(front)
            }
            None => Err(AllocError),
        }
    }
}
