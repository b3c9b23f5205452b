//! Putting an item into pieces. What can fail comes before any change.

ghost use Rattle.std.specs.Prelude.{◌≡◌, ◌<◌, ◌≤◌, ◌+◌, ◌++◌, ◌∷◌, [], IfOk, OnOk, OnErr, length, get_or};
ghost use Rattle.std.specs.List.{insert};
ghost use Rattle.lasp_log.specs.Log.{joined};
ghost use Rattle.lasp_dots.specs.Pieces.{many, IsParted, AreFilled, offset, IsPlace};

use super::edge::Edge;
use super::piece::{FULL, Piece};
use super::search::{Place, place_of};
use lasp_log::Share;
use std::alloc::{AllocError, Global};

/// Puts an item in at its edge. A full piece is halved first.
pub(crate) fn put_in<T: Share + Edge<T>>(
    alloc: Global,
    pieces: &mut Vec<Piece<T>>,
    item: T,
) -> Result<(), AllocError>
    requires filled { AreFilled pieces.old.items }
    requires parted { IsParted (T.in_front item) (joined pieces.old.items) }
    ensures ok { OnOk result (joined pieces.new.items ≡ insert (joined pieces.old.items) (many (T.in_front item) (joined pieces.old.items)) item) }
    ensures err { OnErr result (joined pieces.new.items ≡ joined pieces.old.items) }
    ensures full { AreFilled pieces.new.items }
{
    if pieces.len() == 0 {
        return push_piece(alloc, pieces, item);
    }
    let place = room_for(alloc, pieces, &item)?;
    insert_at(alloc, pieces, place, item)
}

/// Appends a piece of one item.
fn push_piece<T: Share>(
    alloc: Global,
    pieces: &mut Vec<Piece<T>>,
    item: T,
) -> Result<(), AllocError>
    requires { AreFilled pieces.old.items }
    ensures ok { OnOk result (joined pieces.new.items ≡ joined pieces.old.items ++ item ∷ []) }
    ensures err { OnErr result (joined pieces.new.items ≡ joined pieces.old.items) }
    ensures full { AreFilled pieces.new.items }
{
    let mut items = Vec::with_capacity(alloc, 1)?;
    items.push(item)?;
    pieces.push(Piece::of(alloc, items)?)?;
    Ok(())
}

/// The place of an edge, in a piece that isn't full.
fn room_for<T: Share, E: Edge<T>>(
    alloc: Global,
    pieces: &mut Vec<Piece<T>>,
    edge: &E,
) -> Result<Place, AllocError>
    requires some { 0 < length pieces.old.items }
    requires filled { AreFilled pieces.old.items }
    requires parted { IsParted (E.in_front edge.now) (joined pieces.old.items) }
    ensures same { joined pieces.new.items ≡ joined pieces.old.items }
    ensures full { AreFilled pieces.new.items }
    ensures place { IfOk result (λ place. IsPlace pieces.new.items place.piece place.at (many (E.in_front edge.now) (joined pieces.old.items))) }
{
    let place = place_of(pieces, edge);
    if pieces[place.piece].items().len() < FULL {
        return Ok(place);
    }
    halve(alloc, pieces, place.piece)?;
    Ok(place_of(pieces, edge))
}

/// Splits a piece into its halves.
fn halve<T: Share>(
    alloc: Global,
    pieces: &mut Vec<Piece<T>>,
    piece: usize,
) -> Result<(), AllocError>
    requires within { piece < length pieces.old.items }
    requires filled { AreFilled pieces.old.items }
    ensures same { joined pieces.new.items ≡ joined pieces.old.items }
    ensures full { AreFilled pieces.new.items }
    ensures some { 0 < length pieces.new.items }
{
    if pieces[piece].items().len() < 2 {
        return Ok(());
    }
    let (low, high) = pieces[piece].halves(alloc)?;
    pieces.insert(piece, low)?;
    pieces[piece + 1] = high;
    Ok(())
}

/// Puts an item in at a place.
fn insert_at<T: Share>(
    alloc: Global,
    pieces: &mut Vec<Piece<T>>,
    place: Place,
    item: T,
) -> Result<(), AllocError>
    requires filled { AreFilled pieces.old.items }
    requires within { place.piece < length pieces.old.items }
    requires fits { place.at ≤ length (get_or pieces.old.items place.piece []) }
    ensures ok { OnOk result (joined pieces.new.items ≡ insert (joined pieces.old.items) (offset pieces.old.items place.piece + place.at) item) }
    ensures err { OnErr result (joined pieces.new.items ≡ joined pieces.old.items) }
    ensures full { AreFilled pieces.new.items }
{
    pieces[place.piece].insert(alloc, place.at, item)
}

/// Appends an item, to the last piece where that has room.
pub(crate) fn push_item<T: Share>(
    alloc: Global,
    pieces: &mut Vec<Piece<T>>,
    item: T,
) -> Result<(), AllocError>
    requires { AreFilled pieces.old.items }
    ensures ok { OnOk result (joined pieces.new.items ≡ joined pieces.old.items ++ item ∷ []) }
    ensures err { OnErr result (joined pieces.new.items ≡ joined pieces.old.items) }
    ensures full { AreFilled pieces.new.items }
{
    let count = pieces.len();
    if count == 0 {
        return push_piece(alloc, pieces, item);
    }
    let at = pieces[count - 1].items().len();
    if at >= FULL {
        return push_piece(alloc, pieces, item);
    }
    let last = Place {
        piece: count - 1,
        at,
    };
    insert_at(alloc, pieces, last, item)
}
