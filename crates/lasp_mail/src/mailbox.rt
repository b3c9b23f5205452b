//! The mailbox and its calls.
ghost use Rattle.std.specs.Prelude.{◌≡◌, ◌<◌, ◌^◌, ◌++◌, ◌∷◌, [], Some, IfOk, IfErr, IfSome, IfNone, OnOk, length};
ghost use mathlib.Core.List.{IsPrefix};

use crate::closed::Closed;
use crate::ends::{Inlet, Outlet};
use crate::framed::Framed;
use crate::item::Item;
use crate::ledger::{Known, OneList};
use crate::line::{Queue, Sent, Taken, cut};
use crate::parcel::Parcel;
use crate::steps::{compare, issue, read, withdraw};
use atomic_table::Table;
use std::alloc::{AllocError, Global};
use std::marker::{Brand, Model};
use std::sync::Wait;

/// A mailbox, which two threads share. Contracts see it as which one it is, and the frame of its bodies.
pub struct Mailbox<T: Framed> {
    queue: Queue<T>,
    table: Table<(), Known<T>, T, OneList, Global>,
}

impl<T: Framed> Model for Mailbox<T> {
    ghost use Rattle.std.specs.Prelude.{◌≡◌, Some};
    ghost use Rattle.lasp_mail.specs.Ends.{BoxId};

    ghost Value = { BoxId T.Frame };

    ghost view = { λ m. record { queue = m.queue; ledger = m.table.shared.table_id; frame = Some (T.frame m.table.shared.key) } };

    ghost invariant = { λ m. m.table.shared.table_id.words ≡ 1 };
}

/// A mailbox that is let go without being closed ends as well, and drops what nobody took.
impl<T: Framed + Drop> Drop for Mailbox<T> {
    fn drop(self) {
        let Mailbox { queue, table: _ } = self;
        queue.destroy();
    }
}

impl<T: Framed + Drop> Mailbox<T> {
    /// A mailbox for bodies of the frame that `like` has, with its two ends.
    pub fn new(alloc: Global, like: &T) -> Result<(Mailbox<T>, Outlet<T>, Inlet<T>), AllocError>
        ensures frame { IfOk result (λ made. made.0.frame ≡ Some (T.frame like.now)) }
        ensures outlet { IfOk result (λ made. made.1 ≡ record { of = made.0; put = [] }) }
        ensures inlet { IfOk result (λ made. made.2 ≡ record { of = made.0; got = [] }) }
    {
        let (table, mut first) = Table::of_words(alloc, &[0], like)?;
        let last = read(&table.shared, &mut first);
        let (queue, mut sender) = Queue::<T>::with_rule(alloc)?;
        let taker = cut::<T, Brand>(&queue, &mut sender, &first);
        let outlet = Outlet {
            pass: sender,
            seat: first,
        };
        let inlet = Inlet {
            pass: taker,
            seat: last,
        };
        Ok((Mailbox { queue, table }, outlet, inlet))
    }

    /// Puts an item in. For want of memory it comes back, and nothing was put.
    pub fn put<R: Wait>(
        &self,
        rt: &R,
        o: &mut Outlet<T>,
        item: Item<T>,
    ) -> Result<(), (Item<T>, AllocError)>
        requires of { o.old.of ≡ self.now }
        requires number { item.number ≡ length o.old.put }
        requires small { length o.old.put < 2 ^ 32 }
        requires frame { Some (T.frame item.body) ≡ self.now.frame }
        ensures ok { OnOk result (o.new ≡ record o.old { put = o.old.put ++ item ∷ [] }) }
        ensures err { IfErr result (λ refused. (refused.0 ≡ item) × (o.new ≡ o.old)) }
    {
        let ledger = &self.table.shared;
        let mark = issue::<T, Brand>(ledger, &mut o.seat, &item);
        let parcel = Parcel::new(item, mark);
        match self.queue.push_as::<Sent, R>(rt, &mut o.pass, parcel) {
            Ok(()) => Ok(()),
            Err(parcel) => {
                let (item, mark) = parcel.open();
                withdraw(ledger, &mut o.seat, mark);
                Err((item, AllocError))
            }
        }
    }

    /// Takes the next item out. `None` comes where the one look of this call found nothing.
    pub fn take<R: Wait>(&self, rt: &R, i: &mut Inlet<T>) -> Option<Item<T>>
        requires of { i.old.of ≡ self.now }
        ensures some { IfSome result (λ item. i.new ≡ record i.old { got = i.old.got ++ item ∷ [] }) }
        ensures number { IfSome result (λ item. item.number ≡ length i.old.got) }
        ensures frame { IfSome result (λ item. Some (T.frame item.body) ≡ self.now.frame) }
        ensures none { IfNone result (i.new ≡ i.old) }
    {
        let parcel = self.queue.pop_as::<Taken, R>(rt, &mut i.pass)?;
        Some(parcel.unpack(&self.table.shared, &mut i.seat))
    }

    /// Ends the mailbox, and drops what nobody took. It never waits.
    pub fn close(self, o: Outlet<T>, i: Inlet<T>) -> Closed<T>
        requires of { (o.of ≡ self) × (i.of ≡ self) }
        ensures lists { result ≡ record { put = o.put; got = i.got } }
        ensures prefix { IsPrefix i.got o.put }
    {
        let Mailbox { queue, table } = self;
        queue.destroy();
        let Outlet { mut seat, .. } = o;
        let Inlet { seat: reader, .. } = i;
        compare(&table.shared, &mut seat, reader);
        Closed { seat }
    }
}
