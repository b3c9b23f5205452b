//! The names of the steps on the table: what each tells, and how a view is cut or joined.
ghost use Rattle.std.specs.Prelude.{List, []};
ghost use Rattle.atomic_table.specs.Seated.{TableId};
ghost use Rattle.lasp_histlock.specs.Steps.{Opens, Frees, LiftsFull, SetsBare, LiftsBare, SetsFull, Looks, Recalls, Adds, Lands};
ghost use Rattle.lasp_histlock.specs.Views.{burdened, unburdened, carrier_of, parent, child, merged, nobody, no_table};

use crate::kept::Kept;
use crate::rule::{Known, Slot};
use crate::view::View;
use atomic_table::{Join, Play, Split};
use std::marker::{Brand, PhantomData};

/// Names one table.
pub trait Room {
    ghost table: { TableId };
}

impl Room for Brand {
    ghost table = { no_table };
}

/// The entries that an addition counts.
pub trait Batch<E> {
    ghost entries: { List E };
}

impl<E> Batch<E> for Brand {
    ghost entries = { [] };
}

/// The table's name is written into the first view.
pub struct Land<J> {
    room: PhantomData<J>,
}

impl<T: Kept, J: Room> Play<Slot<T>, Known<T>> for Land<J> {
    ghost then = { Lands J.table };
}

/// The exchange that begins a turn.
pub struct Open;

impl<T: Kept> Play<Slot<T>, Known<T>> for Open {
    ghost then = { Opens };
}

/// The store that ends a turn.
pub struct Free;

impl<T: Kept> Play<Slot<T>, Known<T>> for Free {
    ghost then = { Frees };
}

/// The slot is taken with the content in it.
pub struct LiftFull;

impl<T: Kept> Play<Slot<T>, Known<T>> for LiftFull {
    ghost then = { LiftsFull };
}

/// The slot goes back empty.
pub struct SetBare;

impl<T: Kept> Play<Slot<T>, Known<T>> for SetBare {
    ghost then = { SetsBare };
}

/// The slot is taken empty.
pub struct LiftBare;

impl<T: Kept> Play<Slot<T>, Known<T>> for LiftBare {
    ghost then = { LiftsBare };
}

/// The slot goes back with the content in it.
pub struct SetFull;

impl<T: Kept> Play<Slot<T>, Known<T>> for SetFull {
    ghost then = { SetsFull };
}

/// The load of the count.
pub struct Look;

impl<T: Kept> Play<Slot<T>, Known<T>> for Look {
    ghost then = { Looks T.names T.may };
}

/// A load that tells what a cut or a joining brought.
pub struct Recall;

impl<T: Kept> Play<Slot<T>, Known<T>> for Recall {
    ghost then = { Recalls T.names T.may };
}

/// The addition to the count.
pub struct Add<J> {
    batch: PhantomData<J>,
}

impl<T: Kept, J: Batch<T::Item>> Play<Slot<T>, Known<T>> for Add<J> {
    ghost then = { Adds J.entries };
}

/// The carrier, as it goes to a pass and away from it.
pub struct Carrier;

impl<E, F> Join<View<E, F>> for Carrier {
    ghost both = { burdened };

    ghost spent = { nobody };
}

impl<E, F> Split<View<E, F>> for Carrier {
    ghost left = { unburdened };

    ghost right = { carrier_of };
}

/// A pass, as it goes away from the first one and comes back.
pub struct Another;

impl<E, F> Split<View<E, F>> for Another {
    ghost left = { parent };

    ghost right = { child };
}

impl<E, F> Join<View<E, F>> for Another {
    ghost both = { merged };

    ghost spent = { nobody };
}
