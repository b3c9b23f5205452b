//! The names of the steps on the ledger.
ghost use Rattle.std.specs.Prelude.{List, []};
ghost use Rattle.lasp_mail.specs.Witness.{issued, mark_of, withdrawn, gathered, compared, reader_of, nobody, Recalls};

use crate::framed::Framed;
use crate::ledger::Known;
use crate::witness::Witness;
use atomic_table::{Join, Play, Split};
use std::marker::{Brand, PhantomData};

/// The items that are put at once: one.
pub trait Batch<E> {
    ghost items: { List E };
}

impl<E> Batch<E> for Brand {
    ghost items = { [] };
}

/// The inlet's seat is cut from the outlet's, before anything is put.
pub struct Read;

impl<E, F> Split<Witness<E, F>> for Read {
    ghost left = { λ w. w };

    ghost right = { reader_of };
}

/// An item is put, and its mark is cut from the outlet's seat.
pub struct Issue<J> {
    batch: PhantomData<J>,
}

impl<E, F, J: Batch<E>> Split<Witness<E, F>> for Issue<J> {
    ghost left = { issued J.items };

    ghost right = { mark_of J.items };
}

/// The mark of an item comes back to the outlet, and the item wasn't put.
pub struct Withdraw;

impl<E, F> Join<Witness<E, F>> for Withdraw {
    ghost both = { λ v w. withdrawn v };

    ghost spent = { nobody };
}

/// The mark of an item comes to the inlet.
pub struct Gather;

impl<E, F> Join<Witness<E, F>> for Gather {
    ghost both = { gathered };

    ghost spent = { nobody };
}

/// The inlet's seat comes to the outlet's.
pub struct Compare;

impl<E, F> Join<Witness<E, F>> for Compare {
    ghost both = { compared };

    ghost spent = { nobody };
}

/// A load that tells what a joining brought.
pub struct Recall;

impl<T: Framed> Play<(), Known<T>> for Recall {
    ghost then = { Recalls (λ x. T.frame x.body) };
}
