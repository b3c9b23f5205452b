//! A turn, made of steps.
ghost use Rattle.std.specs.Prelude.{◌≡◌, ◌+◌, ◌<◌, ◌≤◌, ◌^◌, ◌++◌, All, [], Some, length};
ghost use Rattle.lasp_histlock.specs.Prelude.{name_of, Made, Allowed, entries_of, grown, HasTurn, HasContent, begun, settled};
ghost use mathlib.Core.List.{IsPrefix};

use crate::content::Content;
use crate::kept::Kept;
use crate::plays::{Batch, Carrier};
use crate::rule::{Board, Seat};
use crate::steps::{add, free, look, put_in, take_out};

/// Takes the value out, with all that its carrier knows.
pub fn begin<T: Kept + Drop>(board: &Board<T>, seat: &mut Seat<T>) -> T
    requires board { (board.now.table_id.words ≡ 2) × (seat.old.table_id ≡ board.now.table_id) }
    requires lock { seat.old.me.0.lock ≡ name_of board.now.table_id }
    requires turn { HasTurn seat.old.me.0 }
    requires empty { seat.old.me.1 ≡ [] }
    ensures seat { (seat.new.table_id ≡ seat.old.table_id) × (seat.new.me ≡ (begun (T.list result) (Some (T.frame result)) seat.old.me.0, [])) }
    ensures seen { IsPrefix seat.old.me.0.seen (T.list result) }
    ensures told { seat.old.me.0.told ≤ length (T.list result) }
    ensures frame { Some (T.frame result) ≡ seat.old.me.0.frame }
    ensures own { seat.old.me.0.own ≡ entries_of T.names seat.old.me.0.number (T.list result) }
    ensures allowed { All (Allowed T.names T.may) (T.list result) }
{
    let (value, carrier) = take_out(board, seat).open();
    board.join_seat::<Carrier>(seat, carrier);
    look(board, seat);
    value
}

/// Puts the value back and ends the turn.
pub fn settle<T: Kept + Drop>(board: &Board<T>, seat: &mut Seat<T>, value: T)
    requires board { (board.now.table_id.words ≡ 2) × (seat.old.table_id ≡ board.now.table_id) }
    requires lock { seat.old.me.0.lock ≡ name_of board.now.table_id }
    requires turn { HasContent seat.old.me.0 }
    requires empty { seat.old.me.1 ≡ [] }
    requires value { (T.list value ≡ seat.old.me.0.seen) × (Some (T.frame value) ≡ seat.old.me.0.frame) }
    ensures { (seat.new.table_id ≡ seat.old.table_id) × (seat.new.me ≡ (settled seat.old.me.0, [])) }
{
    let carrier = board.split_seat::<Carrier>(seat);
    put_in(board, seat, Content::new(value, carrier));
    free(board, seat);
}

/// Counts the entries that were added, puts the value back and ends the turn.
pub fn finish<T: Kept + Drop, J: Batch<T::Item>>(
    board: &Board<T>,
    seat: &mut Seat<T>,
    value: T,
    count: u64,
)
    requires board { (board.now.table_id.words ≡ 2) × (seat.old.table_id ≡ board.now.table_id) }
    requires lock { seat.old.me.0.lock ≡ name_of board.now.table_id }
    requires turn { HasContent seat.old.me.0 }
    requires empty { seat.old.me.1 ≡ [] }
    requires value { (T.list value ≡ seat.old.me.0.seen ++ J.entries) × (Some (T.frame value) ≡ seat.old.me.0.frame) }
    requires entries { Made T.names T.may seat.old.me.0.number J.entries × (count ≡ length J.entries) }
    requires small { length seat.old.me.0.seen + length J.entries < 2 ^ 64 }
    ensures { (seat.new.table_id ≡ seat.old.table_id) × (seat.new.me ≡ (settled (grown J.entries seat.old.me.0), [])) }
{
    add::<T, J>(board, seat, count);
    settle(board, seat, value);
}
