//! The two ends of a mailbox.

use crate::framed::Framed;
use crate::ledger::Seat;
use crate::line::Pass;
use std::marker::Model;

/// The sender's end. It may go to another thread, and has no bytes. Contracts see it as which mailbox it is of, and the list of
/// the items that it put.
#[derive(Drop)]
pub struct Outlet<T: Framed> {
    pub(crate) pass: Pass<T>,
    pub(crate) seat: Seat<T>,
}

impl<T: Framed> Model for Outlet<T> {
    ghost use Rattle.lasp_mail.specs.declared.item.Item.{Item};
    ghost use Rattle.lasp_mail.specs.Ends.{OutletView, outlet_view, IsOutlet};

    ghost Value = { OutletView (Item T) T.Frame };

    ghost view = { λ o. outlet_view o.pass o.seat };

    ghost invariant = { λ o. IsOutlet o.pass o.seat };
}

/// The receiver's end. It may go to another thread, and has no bytes. Contracts see it as which mailbox it is of, and the list of
/// the items that it took.
#[derive(Drop)]
pub struct Inlet<T: Framed> {
    pub(crate) pass: Pass<T>,
    pub(crate) seat: Seat<T>,
}

impl<T: Framed> Model for Inlet<T> {
    ghost use Rattle.lasp_mail.specs.declared.item.Item.{Item};
    ghost use Rattle.lasp_mail.specs.Ends.{InletView, inlet_view, IsInlet};

    ghost Value = { InletView (Item T) T.Frame };

    ghost view = { λ i. inlet_view i.pass i.seat };

    ghost invariant = { λ i. IsInlet i.pass i.seat };
}
