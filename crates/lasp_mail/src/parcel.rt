//! What lies in the queue.
ghost use Rattle.std.specs.Prelude.{◌≡◌, [], ◌∷◌, Some, length};
ghost use Rattle.lasp_mail.specs.Prelude.{Attests, IsReader, took};

use crate::framed::Framed;
use crate::item::Item;
use crate::ledger::{Known, Ledger, Seat};
use crate::steps::gather;
use atomic_table::Badge;
use std::marker::Model;

/// An item, with the mark that tells what was put before it.
#[derive(Drop)]
pub struct Parcel<T: Framed> {
    item: Item<T>,
    mark: Badge<Known<T>>,
}

impl<T: Framed> Model for Parcel<T> {
    ghost use Rattle.lasp_mail.specs.declared.item.Item.{Item};
    ghost use Rattle.lasp_mail.specs.Parcel.{ParcelView, Attests};

    ghost Value = { ParcelView (Item T) T.Frame };

    ghost view = { λ p. record { item = p.item; table = p.mark.table_id; marks = p.mark.views } };

    ghost invariant = { λ p. Attests p.item p.item.number p.mark.views };
}

impl<T: Framed> Parcel<T> {
    pub fn new(item: Item<T>, mark: Seat<T>) -> Parcel<T>
        requires empty { mark.me.1 ≡ [] }
        requires mark { Attests item item.number (mark.me.0 ∷ []) }
        ensures { result ≡ record { item = item; table = mark.table_id; marks = mark.me.0 ∷ [] } }
    {
        Parcel {
            item,
            mark: mark.into_badge(),
        }
    }

    pub fn open(self) -> (Item<T>, Seat<T>)
        ensures item { result.0 ≡ self.item }
        ensures mark { (result.1.table_id ≡ self.table) × (result.1.me.1 ≡ []) × (self.marks ≡ result.1.me.0 ∷ []) }
        ensures attests { Attests result.0 result.0.number (result.1.me.0 ∷ []) }
    {
        let Parcel { item, mark } = self;
        (item, mark.into_seat())
    }

    /// The item, whose mark goes to the inlet's seat.
    pub fn unpack(self, ledger: &Ledger<T>, seat: &mut Seat<T>) -> Item<T>
        requires ledger { (ledger.now.table_id.words ≡ 1) × (seat.old.table_id ≡ ledger.now.table_id) × (self.table ≡ ledger.now.table_id) }
        requires reader { IsReader seat.old.me.0 × (seat.old.me.0.next ≡ []) }
        requires number { self.item.number ≡ length seat.old.me.0.list }
        ensures item { result ≡ self.item }
        ensures seat { (seat.new.table_id ≡ ledger.now.table_id) × (seat.new.me ≡ (took result seat.old.me.0, seat.old.me.1)) }
        ensures frame { Some (T.frame result.body) ≡ seat.old.me.0.frame }
    {
        let (item, mark) = self.open();
        gather(ledger, seat, mark);
        item
    }
}
