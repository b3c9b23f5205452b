//! A pass: what one caller knows of the history.
ghost use Rattle.std.specs.Prelude.{◌≡◌, All};
ghost use Rattle.lasp_histlock.specs.Prelude.{entries_of, Allowed};

use crate::kept::Kept;
use crate::rule::Seat;
use std::marker::Model;

/// What one caller knows of the history of one lock. Every call on the lock is made with a pass. Contracts see it as its
/// number, a beginning of the history, the caller's own entries in it, and counts of what it tried.
#[derive(Drop)]
pub struct Pass<T: Kept> {
    pub(crate) seat: Seat<T>,
    pub(crate) number: u64,
    pub(crate) made: u64,
    // how many entries it has seen
    pub(crate) entries: u64,
    pub(crate) turn: bool,
}

impl<T: Kept> Model for Pass<T> {
    ghost use Rattle.lasp_histlock.specs.Passes.{PassView, pass_view, IsPass};

    ghost Value = { PassView T.Item T.Frame };

    ghost view = { λ p. pass_view p.seat.table_id p.seat.me.0 };

    ghost invariant = { λ p. IsPass T.names T.may p.seat.table_id p.seat.me p.number p.made p.entries p.turn };
}

impl<T: Kept> Pass<T> {
    /// The number that its entries name; 0 of the first pass.
    pub fn number(&self) -> u64
        ensures { result ≡ self.now.number }
    {
        self.number
    }

    /// How many numbers were given out so far, its own among them.
    pub fn made(&self) -> u64
        requires first { self.now.number ≡ 0 }
        ensures { result ≡ self.now.made }
    {
        self.made
    }

    /// Recalls, at no cost, what holds of every pass.
    pub fn known(&self)
        ensures own { self.now.own ≡ entries_of T.names self.now.number self.now.seen }
        ensures allowed { All (Allowed T.names T.may) self.now.seen }
    {
        let _ = &self.seat;
    }
}
