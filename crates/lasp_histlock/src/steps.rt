//! The steps on the table, one function each. A seat and a board that come together are of one table.
ghost use Rattle.std.specs.Prelude.{◌≡◌, ◌+◌, ◌<◌, ◌≤◌, ◌^◌, true, false, [], None, Some, MatchBool, length};
ghost use Rattle.lasp_histlock.specs.Prelude.{name_of, Made, founder, landed, turned_to, missed, placed, looked, recalled, grown, IsReady, SomeOut, Told};

use crate::content::Content;
use crate::kept::Kept;
use crate::plays::{
    Add, Batch, Free, Land, LiftBare, LiftFull, Look, Open, Recall, Room, SetBare, SetFull,
};
use crate::rule::{Board, COUNT, Seat, TURN};

/// Writes the table's name into the first view. It costs a load.
pub fn land<T: Kept, J: Room>(board: &Board<T>, seat: &mut Seat<T>)
    requires board { (board.now.table_id.words ≡ 2) × (seat.old.table_id ≡ board.now.table_id) }
    requires first { (seat.old.id ≡ 0) × (seat.old.me ≡ (founder (T.frame board.now.key), [])) }
    ensures { (seat.new.table_id ≡ seat.old.table_id) × (seat.new.me ≡ (landed J.table seat.old.me.0, [])) }
{
    board.load::<Land<J>>(seat, TURN);
}

/// Tries to begin a turn by one exchange, and says whether it did.
pub fn open<T: Kept>(board: &Board<T>, seat: &mut Seat<T>) -> bool
    requires board { (board.now.table_id.words ≡ 2) × (seat.old.table_id ≡ board.now.table_id) }
    requires pass { IsReady seat.old.me.0 × (seat.old.me.0.pass ≡ true) × (seat.old.me.0.turn ≡ false) }
    ensures same { seat.new.table_id ≡ seat.old.table_id }
    ensures turn { MatchBool result (seat.new.me ≡ (turned_to true seat.old.me.0, seat.old.me.1)) (seat.new.me ≡ (missed seat.old.me.0, seat.old.me.1)) }
    ensures bare { result ≡ true → seat.old.me.0.carries ≡ false }
    ensures out { result ≡ false → seat.old.me.0.number ≡ 0 → SomeOut seat.old.me.0.made seat.old.me.0.back }
{
    board.compare_exchange::<Open>(seat, TURN, 0, 1) == 0
}

/// Ends the turn.
pub fn free<T: Kept>(board: &Board<T>, seat: &mut Seat<T>)
    requires board { (board.now.table_id.words ≡ 2) × (seat.old.table_id ≡ board.now.table_id) }
    requires turn { IsReady seat.old.me.0 × (seat.old.me.0.turn ≡ true) × (seat.old.me.0.carries ≡ false) × (seat.old.me.0.out ≡ false) }
    ensures { (seat.new.table_id ≡ seat.old.table_id) × (seat.new.me ≡ (turned_to false seat.old.me.0, seat.old.me.1)) }
{
    board.store::<Free>(seat, TURN, 0);
}

/// Takes the content out of the slot. It costs two loads.
pub fn take_out<T: Kept + Drop>(board: &Board<T>, seat: &mut Seat<T>) -> Content<T>
    requires board { (board.now.table_id.words ≡ 2) × (seat.old.table_id ≡ board.now.table_id) }
    requires turn { IsReady seat.old.me.0 × (seat.old.me.0.turn ≡ true) × (seat.old.me.0.out ≡ false) }
    requires empty { seat.old.me.1 ≡ [] }
    ensures seat { (seat.new.table_id ≡ seat.old.table_id) × (seat.new.me ≡ (placed true false seat.old.me.0, [])) }
    ensures content { name_of result.0 ≡ seat.old.me.0.lock }
{
    board.load::<LiftFull>(seat, TURN);
    let content = board.exchange(seat, 0, None).unwrap();
    board.load::<SetBare>(seat, TURN);
    content
}

/// Puts the content into the slot. It costs two loads.
pub fn put_in<T: Kept + Drop>(board: &Board<T>, seat: &mut Seat<T>, content: Content<T>)
    requires board { (board.now.table_id.words ≡ 2) × (seat.old.table_id ≡ board.now.table_id) }
    requires turn { IsReady seat.old.me.0 × (seat.old.me.0.turn ≡ true) × (seat.old.me.0.out ≡ true) × (seat.old.me.0.lifted ≡ false) }
    requires empty { seat.old.me.1 ≡ [] }
    requires content { name_of content.0 ≡ seat.old.me.0.lock }
    ensures { (seat.new.table_id ≡ seat.old.table_id) × (seat.new.me ≡ (placed false false seat.old.me.0, [])) }
{
    board.load::<LiftBare>(seat, TURN);
    drop(board.exchange(seat, 0, Some(content)));
    board.load::<SetFull>(seat, TURN);
}

/// Loads the number of entries.
pub fn look<T: Kept>(board: &Board<T>, seat: &mut Seat<T>) -> u64
    requires board { (board.now.table_id.words ≡ 2) × (seat.old.table_id ≡ board.now.table_id) }
    requires ready { IsReady seat.old.me.0 }
    ensures seat { (seat.new.table_id ≡ seat.old.table_id) × (seat.new.me ≡ (looked result seat.old.me.0, seat.old.me.1)) }
    ensures told { Told T.names T.may seat.old.me.0 }
    ensures later { (length seat.old.me.0.seen ≤ result) × (seat.old.me.0.told ≤ result) }
    ensures whole { seat.old.me.0.carries ≡ true → length seat.old.me.0.seen ≡ result }
{
    board.load::<Look>(seat, COUNT)
}

/// Recalls what the rule knows of the view. It costs a load.
pub fn recall<T: Kept>(board: &Board<T>, seat: &mut Seat<T>)
    requires board { (board.now.table_id.words ≡ 2) × (seat.old.table_id ≡ board.now.table_id) }
    requires ready { IsReady seat.old.me.0 }
    ensures seat { (seat.new.table_id ≡ seat.old.table_id) × (seat.new.me ≡ (recalled seat.old.me.0, seat.old.me.1)) }
    ensures told { Told T.names T.may seat.old.me.0 }
{
    board.load::<Recall>(seat, TURN);
}

/// Counts entries that were added to the value.
pub fn add<T: Kept, J: Batch<T::Item>>(board: &Board<T>, seat: &mut Seat<T>, count: u64)
    requires board { (board.now.table_id.words ≡ 2) × (seat.old.table_id ≡ board.now.table_id) }
    requires carries { IsReady seat.old.me.0 × (seat.old.me.0.pass ≡ true) × (seat.old.me.0.carries ≡ true) }
    requires entries { Made T.names T.may seat.old.me.0.number J.entries × (count ≡ length J.entries) }
    requires small { length seat.old.me.0.seen + length J.entries < 2 ^ 64 }
    ensures { (seat.new.table_id ≡ seat.old.table_id) × (seat.new.me ≡ (grown J.entries seat.old.me.0, seat.old.me.1)) }
{
    board.fetch_add::<Add<J>>(seat, COUNT, count);
}
