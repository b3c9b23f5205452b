//! The steps on the ledger, one function each. A seat and a ledger that come together are of one table.
ghost use Rattle.std.specs.Prelude.{◌≡◌, ◌+◌, ◌<◌, ◌≤◌, ◌++◌, [], Some, All, length};
ghost use Rattle.lasp_mail.specs.Prelude.{IsOwner, IsReader, Told, all_of, issued, mark_of, withdrawn, gathered, compared, reader_of, recalled};

use crate::framed::Framed;
use crate::item::Item;
use crate::ledger::{Ledger, Seat, WORD};
use crate::plays::{Batch, Compare, Gather, Issue, Read, Recall, Withdraw};

/// A seat that has read nothing.
pub fn read<T: Framed>(ledger: &Ledger<T>, seat: &mut Seat<T>) -> Seat<T>
    requires ledger { (ledger.now.table_id.words ≡ 1) × (seat.old.table_id ≡ ledger.now.table_id) }
    requires owner { IsOwner seat.old.me.0 }
    ensures seat { (seat.new.table_id ≡ ledger.now.table_id) × (seat.new.me ≡ seat.old.me) }
    ensures reader { (result.table_id ≡ ledger.now.table_id) × (result.me ≡ (reader_of seat.old.me.0, [])) }
{
    ledger.split_seat::<Read>(seat)
}

/// Counts an item as put, and answers the mark that goes with it. The item is handed in for the proof, which reads off it what is put.
pub fn issue<T: Framed, J: Batch<Item<T>>>(
    ledger: &Ledger<T>,
    seat: &mut Seat<T>,
    item: &Item<T>,
) -> Seat<T>
    requires ledger { (ledger.now.table_id.words ≡ 1) × (seat.old.table_id ≡ ledger.now.table_id) }
    requires owner { IsOwner seat.old.me.0 }
    requires frame { All (λ x. Some (T.frame x.body) ≡ seat.old.me.0.frame) J.items }
    ensures seat { (seat.new.table_id ≡ ledger.now.table_id) × (seat.new.me ≡ (issued J.items seat.old.me.0, seat.old.me.1)) }
    ensures mark { (result.table_id ≡ ledger.now.table_id) × (result.me ≡ (mark_of J.items seat.old.me.0, [])) }
{
    let _ = item;
    ledger.split_seat::<Issue<J>>(seat)
}

/// Takes the mark back, and counts its item as not put.
pub fn withdraw<T: Framed>(ledger: &Ledger<T>, seat: &mut Seat<T>, mark: Seat<T>)
    requires ledger { (ledger.now.table_id.words ≡ 1) × (seat.old.table_id ≡ ledger.now.table_id) × (mark.table_id ≡ ledger.now.table_id) }
    requires owner { IsOwner seat.old.me.0 × (0 < length seat.old.me.0.next) }
    requires mark { IsReader mark.me.0 × (mark.me.1 ≡ []) × (mark.me.0.list ≡ all_of seat.old.me.0) }
    ensures { (seat.new.table_id ≡ ledger.now.table_id) × (seat.new.me ≡ (withdrawn seat.old.me.0, seat.old.me.1)) }
{
    ledger.join_seat::<Withdraw>(seat, mark);
}

/// Takes the mark of an item that was taken, and tells that what was taken before begins its list.
pub fn gather<T: Framed>(ledger: &Ledger<T>, seat: &mut Seat<T>, mark: Seat<T>)
    requires ledger { (ledger.now.table_id.words ≡ 1) × (seat.old.table_id ≡ ledger.now.table_id) × (mark.table_id ≡ ledger.now.table_id) }
    requires reader { IsReader seat.old.me.0 × (seat.old.me.0.next ≡ []) }
    requires mark { IsReader mark.me.0 × (mark.me.1 ≡ []) × (length seat.old.me.0.list ≤ length mark.me.0.list) }
    ensures seat { (seat.new.table_id ≡ ledger.now.table_id) × (seat.new.me ≡ (recalled (gathered seat.old.me.0 mark.me.0), seat.old.me.1)) }
    ensures told { Told (λ x. T.frame x.body) (gathered seat.old.me.0 mark.me.0) }
{
    ledger.join_seat::<Gather>(seat, mark);
    ledger.load::<Recall>(seat, WORD);
}

/// Takes the inlet's seat, and tells that what was taken begins what was put.
pub fn compare<T: Framed>(ledger: &Ledger<T>, seat: &mut Seat<T>, reader: Seat<T>)
    requires ledger { (ledger.now.table_id.words ≡ 1) × (seat.old.table_id ≡ ledger.now.table_id) × (reader.table_id ≡ ledger.now.table_id) }
    requires owner { IsOwner seat.old.me.0 }
    requires reader { IsReader reader.me.0 × (reader.me.1 ≡ []) }
    ensures seat { (seat.new.table_id ≡ ledger.now.table_id) × (seat.new.me ≡ (recalled (compared seat.old.me.0 reader.me.0), seat.old.me.1)) }
    ensures told { Told (λ x. T.frame x.body) (compared seat.old.me.0 reader.me.0) }
{
    ledger.join_seat::<Compare>(seat, reader);
    ledger.load::<Recall>(seat, WORD);
}
