//! The log of a shelf, as a beginning of it that was seen: a token without bytes, which may be copied, shared and compared.
//!
//! The log exists in the proofs alone. What there is of it is one word, its length, to which the shelf alone adds.

ghost use Rattle.std.specs.Prelude.{◌≡◌, [], ◌∷◌, ◌++◌, ◌+◌, length, None, IfSome};
ghost use Rattle.lasp_snap.specs.Log.{AreOfOne, head_of};

use super::entry::Entry;
use super::version::Version;
use logbook::{Gain, Offer, Plain, Play, Rule, Seen, Start, Word};
use std::marker::Model;

/// The rule of the log.
pub struct Law;

impl Rule<Entry, u64> for Law {
    ghost use Rattle.std.specs.Prelude.{[]};
    ghost use base.Fml.{ftrue};
    ghost use Rattle.lasp_snap.specs.Log.{IsKept};

    ghost holds = { λ cells log. IsKept cells log };

    ghost first = { [] };

    ghost hinted = { λ n log. Unit {0} };

    ghost shows = { λ log. [] };

    ghost keeps = { λ names log. ftrue };

    ghost moves = { λ ask before after answer. Unit {0} };
}

/// Nothing is traded.
pub struct Nothing;

impl Gain<Entry, u64> for Nothing {
    ghost use base.Fml.{ftrue};

    ghost after = { λ names about answer. ftrue };
}

/// A step that adds an entry.
pub struct Add;

impl Play<Entry, u64> for Add {
    ghost use Rattle.lasp_snap.specs.Log.{Adds};

    ghost then = { Adds };
}

/// The version is offered.
pub struct Offering;

impl Plain<Version, Entry, u64> for Offering {
    ghost use Rattle.std.specs.Prelude.{None};
    ghost use Rattle.lasp_snap.specs.Log.{offered};

    ghost ask = { offered };

    ghost state = { λ _. None };
}

/// The version is shown.
pub struct Confirming;

impl Plain<Version, Entry, u64> for Confirming {
    ghost use Rattle.std.specs.Prelude.{None};
    ghost use Rattle.lasp_snap.specs.Log.{confirmed};

    ghost ask = { confirmed };

    ghost state = { λ _. None };
}

/// The one word of a log: its length.
pub type Head = Word<Entry, u64, Law>;

/// A beginning of a log. Contracts see it as which book the log is, and the entries.
#[derive(Drop)]
pub struct Front {
    entries: u64,
    seen: Seen<Entry, u64, Law>,
}

impl Model for Front {
    ghost use Rattle.std.specs.Prelude.{◌≡◌, length};
    ghost use Rattle.lasp_snap.specs.Log.{FrontView, coded_front};

    ghost Value = { FrontView };

    ghost coded = { coded_front };

    ghost view = { λ f. record { book = f.seen.book; log = f.seen.log } };

    ghost invariant = { λ f. f.entries ≡ length f.seen.log };
}

/// A new log, with nothing in it. It takes no memory.
pub fn new_log() -> (Head, Front)
    ensures head { result.0 ≡ head_of result.1.book }
    ensures empty { result.1.log ≡ [] }
{
    let (seen, mut first, _second) = Seen::open(Start::alone(), 0, 0);
    (Word::tracked(0, &mut first), Front { entries: 0, seen })
}

impl Front {
    /// How many entries it has.
    pub fn len(&self) -> u64
        ensures { result ≡ length self.now.log }
    {
        self.entries
    }

    /// A copy.
    pub fn again(&self) -> Front
        ensures { result ≡ self.now }
    {
        Front {
            entries: self.entries,
            seen: self.seen.again(),
        }
    }

    /// Recalls, at no cost, that the shorter of two beginnings of one log begins the longer.
    pub fn compare(&self, other: &Front)
        requires { other.now.book ≡ self.now.book }
        ensures { AreOfOne self.now.log other.now.log }
    {
        let mut both = self.seen.again();
        both.learn(&other.seen);
    }

    /// This beginning with one entry more, where that is the next one of the log.
    pub fn after<M: Plain<Version, Entry, u64>>(
        &self,
        head: &Head,
        version: &Version,
    ) -> Option<Front>
        requires head { head.now ≡ head_of self.now.book }
        requires new { M.state version.now ≡ None }
        ensures book { IfSome result (λ f. f.book ≡ self.now.book) }
        ensures log { IfSome result (λ f. f.log ≡ self.now.log ++ M.ask version.now ∷ []) }
    {
        let entries = self.entries.checked_add(1)?;
        let seen = self.seen.again();
        let offer: Offer<Entry, u64, Law, Nothing> = seen.plain::<Nothing, Version, M>(version);
        let seen = extended(head, self.entries, entries, seen, offer)?;
        Some(Front { entries, seen })
    }
}

/// The log with what is offered at its end, where it has so many entries as were seen, and one more then.
fn extended(
    head: &Head,
    entries: u64,
    more: u64,
    mut seen: Seen<Entry, u64, Law>,
    mut offer: Offer<Entry, u64, Law, Nothing>,
) -> Option<Seen<Entry, u64, Law>>
    requires head { head.now ≡ head_of seen.book }
    requires entries { entries ≡ length seen.log }
    requires more { more ≡ entries + 1 }
    requires names { offer.names ≡ seen.names }
    requires new { offer.state ≡ None }
    ensures book { IfSome result (λ s. s.book ≡ seen.book) }
    ensures log { IfSome result (λ s. s.log ≡ seen.log ++ offer.ask ∷ []) }
{
    let mut pen = seen.no_pen();
    let found = head.compare_exchange::<Add, Nothing>(
        entries, more, &mut seen, &mut offer, &mut pen,
    );
    if found == entries { Some(seen) } else { None }
}
