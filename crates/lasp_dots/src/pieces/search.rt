//! The search for an edge: first the piece, by what the pieces begin with, then the place in it.

ghost use Rattle.std.specs.Prelude.{◌≡◌, ◌<◌, ◌+◌, ◌≤◌, nat_lt, IfSome, IfNone, Some, length, slice_get};
ghost use Rattle.lasp_log.specs.Log.{joined};
ghost use Rattle.lasp_dots.specs.Pieces.{many, IsParted, AreFilled, offset, IsPlace};

use super::edge::Edge;
use super::piece::Piece;
use lasp_log::Share;

/// A place among the items of pieces.
#[derive(Clone, Copy, Drop)]
pub(crate) struct Place {
    pub(crate) piece: usize,
    /// How many items of the piece stand before it.
    pub(crate) at: usize,
}

/// The place of an edge.
pub(crate) fn place_of<T: Share, E: Edge<T>>(pieces: &[Piece<T>], edge: &E) -> Place
    requires some { 0 < length pieces.now }
    requires filled { AreFilled pieces.now }
    requires parted { IsParted (E.in_front edge.now) (joined pieces.now) }
    ensures { IsPlace pieces.now result.piece result.at (many (E.in_front edge.now) (joined pieces.now)) }
{
    let piece = piece_of(pieces, edge);
    let items = pieces[piece].items();
    Place {
        piece,
        at: place_in(items, edge),
    }
}

/// The last piece that begins before the edge, or the first piece.
fn piece_of<T: Share, E: Edge<T>>(pieces: &[Piece<T>], edge: &E) -> usize
    requires some { 0 < length pieces.now }
    requires filled { AreFilled pieces.now }
    requires parted { IsParted (E.in_front edge.now) (joined pieces.now) }
    ensures within { result < length pieces.now }
    ensures low { 0 < result → offset pieces.now result < many (E.in_front edge.now) (joined pieces.now) }
    ensures high { many (E.in_front edge.now) (joined pieces.now) ≤ offset pieces.now (result + 1) }
{
    let mut low = 0usize;
    let mut high = pieces.len();
    while high - low > 1 {
        let middle = low + (high - low) / 2;
        let items = pieces[middle].items();
        if begins_before(items, edge) {
            low = middle;
        } else {
            high = middle;
        }
    }
    low
}

/// Whether the first of some items stands before the edge.
fn begins_before<T: Share, E: Edge<T>>(items: &[T], edge: &E) -> bool
    requires some { 0 < length items.now }
    requires parted { IsParted (E.in_front edge.now) items.now }
    ensures { result ≡ nat_lt 0 (many (E.in_front edge.now) items.now) }
{
    edge.passes(&items[0])
}

/// How many of some items stand before the edge.
fn place_in<T: Share, E: Edge<T>>(items: &[T], edge: &E) -> usize
    requires { IsParted (E.in_front edge.now) items.now }
    ensures { result ≡ many (E.in_front edge.now) items.now }
{
    let mut low = 0usize;
    let mut high = items.len();
    while low < high {
        let middle = low + (high - low) / 2;
        if edge.passes(&items[middle]) {
            low = middle + 1;
        } else {
            high = middle;
        }
    }
    low
}

/// The first item behind an edge.
pub(crate) fn item_behind<'a, T: Share, E: Edge<T>>(
    pieces: &'a [Piece<T>],
    edge: &E,
) -> Option<&'a T>
    requires filled { AreFilled pieces.now }
    requires parted { IsParted (E.in_front edge.now) (joined pieces.now) }
    ensures some { IfSome result (λ x. slice_get (joined pieces.now) (many (E.in_front edge.now) (joined pieces.now)) ≡ Some x.now) }
    ensures none { IfNone result (length (joined pieces.now) ≤ many (E.in_front edge.now) (joined pieces.now)) }
{
    if pieces.is_empty() {
        return None;
    }
    let place = place_of(pieces, edge);
    let items = pieces[place.piece].items();
    if place.at < items.len() {
        return Some(&items[place.at]);
    }
    if place.piece + 1 < pieces.len() {
        let behind = pieces[place.piece + 1].items();
        return Some(&behind[0]);
    }
    None
}

/// The item at a place among all.
pub(crate) fn item_at<T: Share>(pieces: &[Piece<T>], place: usize) -> &T
    requires { place < length (joined pieces.now) }
    ensures { slice_get (joined pieces.now) place ≡ Some result.now }
{
    let mut rest = place;
    for piece in pieces {
        let items = piece.items();
        if rest < items.len() {
            return &items[rest];
        }
        rest -= items.len();
    }
    unreachable!()
}
