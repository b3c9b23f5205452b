//! What is left of a mailbox that was closed.
ghost use mathlib.Core.List.{IsPrefix};

use crate::framed::Framed;
use crate::ledger::Seat;
use std::marker::Model;

/// What went through a mailbox: contracts see it as what was put and what was got. It has no bytes.
#[derive(Drop)]
pub struct Closed<T: Framed> {
    pub(crate) seat: Seat<T>,
}

impl<T: Framed> Model for Closed<T> {
    ghost use mathlib.Core.List.{IsPrefix};
    ghost use Rattle.lasp_mail.specs.declared.item.Item.{Item};
    ghost use Rattle.lasp_mail.specs.Ends.{ClosedView, closed_view};
    ghost use Rattle.lasp_mail.specs.Witness.{all_of};

    ghost Value = { ClosedView (Item T) };

    ghost view = { λ c. closed_view c.seat };

    ghost invariant = { λ c. IsPrefix c.seat.me.0.beside (all_of c.seat.me.0) };
}

impl<T: Framed> Closed<T> {
    /// Recalls, at no cost, what holds of every mailbox.
    pub fn known(&self)
        ensures { IsPrefix self.now.got self.now.put }
    {
        let _ = &self.seat;
    }
}
