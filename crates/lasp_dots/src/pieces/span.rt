//! What stands between two edges.

ghost use Rattle.std.specs.Prelude.{◌≡◌, ◌<◌, ◌≤◌, ◌+◌, ◌^◌, length};
ghost use Rattle.lasp_log.specs.Log.{joined};
ghost use Rattle.lasp_dots.specs.Pieces.{many, IsParted, AreFilled, IsPlace};

use super::edge::Edge;
use super::piece::Piece;
use super::search::{Place, place_of};
use lasp_log::Share;

/// Two places, and how many items stand between them.
#[derive(Drop)]
pub(crate) struct Span {
    pub(crate) begin: Place,
    pub(crate) end: Place,
    pub(crate) count: usize,
}

/// What stands between two edges.
pub(crate) fn span_of<T: Share, E: Edge<T>, F: Edge<T>>(
    pieces: &[Piece<T>],
    from: &E,
    to: &F,
) -> Span
    requires some { 0 < length pieces.now }
    requires filled { AreFilled pieces.now }
    requires small { length (joined pieces.now) ≤ 2 ^ 32 }
    requires from { IsParted (E.in_front from.now) (joined pieces.now) }
    requires to { IsParted (F.in_front to.now) (joined pieces.now) }
    requires order { many (E.in_front from.now) (joined pieces.now) ≤ many (F.in_front to.now) (joined pieces.now) }
    ensures begin { IsPlace pieces.now result.begin.piece result.begin.at (many (E.in_front from.now) (joined pieces.now)) }
    ensures end { IsPlace pieces.now result.end.piece result.end.at (many (F.in_front to.now) (joined pieces.now)) }
    ensures order { result.begin.piece ≤ result.end.piece }
    ensures count { result.count + many (E.in_front from.now) (joined pieces.now) ≡ many (F.in_front to.now) (joined pieces.now) }
{
    let begin = place_of(pieces, from);
    let end = place_of(pieces, to);
    let between = count_items(&pieces[begin.piece..end.piece]);
    Span {
        begin,
        end,
        count: between + end.at - begin.at,
    }
}

/// How many items some pieces have.
fn count_items<T: Share>(pieces: &[Piece<T>]) -> usize
    requires { length (joined pieces.now) ≤ 2 ^ 32 }
    ensures { result ≡ length (joined pieces.now) }
{
    let mut count = 0usize;
    for piece in pieces {
        let items = piece.items();
        count += items.len();
    }
    count
}
