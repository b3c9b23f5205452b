//! The queue of a mailbox, and what its two passes know of it.
ghost use Rattle.std.specs.Prelude.{◌≡◌, ⊤};
ghost use Rattle.atomic_table.specs.Seated.{TableId};
ghost use Rattle.crossbeam_queue.specs.SegTies.{IsSegPassOf};
ghost use Rattle.lasp_mail.specs.Prelude.{both_ends, no_table, sending, taking};

use crate::framed::Framed;
use crate::ledger::Seat;
use crate::parcel::Parcel;
use crate::place::Place;
use crossbeam_queue::protocol::{Lesson, Outcome, Protocol, Split};
use crossbeam_queue::{RuledSegQueue, SegPass};
use std::marker::{Brand, PhantomData};

/// What a pass of the queue knows. No value of it is made.
pub struct Line {
    pub sends: bool,
    pub takes: bool,
    /// How many parcels this pass has sent or taken.
    pub count: u64,
    /// The ledger that the parcels' marks are of.
    pub place: Place,
}

pub type Queue<T> = RuledSegQueue<Parcel<T>, Line, Numbers>;

pub type Pass<T> = SegPass<Parcel<T>, Line>;

/// The parcels stand in the order of their numbers.
pub struct Numbers;

impl<T: Framed> Protocol<Parcel<T>, Line> for Numbers {
    ghost use Rattle.lasp_mail.specs.Line.{InOrder};

    ghost holds = { InOrder };

    ghost first = { both_ends };
}

/// A parcel is sent.
pub struct Sent;

impl<T: Framed> Outcome<Parcel<T>, Line> for Sent {
    ghost use Rattle.lasp_mail.specs.Line.{Puts};

    ghost then = { Puts };
}

/// The first parcel is taken.
pub struct Taken;

impl<T: Framed> Outcome<Parcel<T>, Line> for Taken {
    ghost use Rattle.lasp_mail.specs.Line.{Takes};

    ghost then = { Takes };
}

impl<T: Framed> Lesson<Parcel<T>, Line> for Taken {
    ghost fact = { λ v parcels. ⊤ };
}

/// Names one table.
pub trait Room {
    ghost table: { TableId };
}

impl Room for Brand {
    ghost table = { no_table };
}

/// The two ends, as they are cut.
pub struct Ends<J> {
    room: PhantomData<J>,
}

impl<J: Room> Split<Line> for Ends<J> {
    ghost left = { λ v. sending J.table 0 };

    ghost right = { λ v. taking J.table 0 };
}

/// Makes the pass of a new queue the sender's, and answers the taker's. The seat is handed in for the proof, which reads off it
/// which table the ledger is.
pub fn cut<T: Framed, J: Room>(queue: &Queue<T>, pass: &mut Pass<T>, seat: &Seat<T>) -> Pass<T>
    requires { IsSegPassOf queue.now pass.old × (pass.old.me.view.client ≡ both_ends) }
    ensures sender { IsSegPassOf queue.now pass.new × (pass.new.me.view.client ≡ sending J.table 0) }
    ensures taker { IsSegPassOf queue.now result × (result.me.view.client ≡ taking J.table 0) }
{
    let _ = seat;
    queue.another::<Ends<J>>(pass)
}
