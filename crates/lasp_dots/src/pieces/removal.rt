//! Taking items out of pieces. What can fail comes before any change.

ghost use Rattle.std.specs.Prelude.{◌≡◌, ◌<◌, ◌≤◌, ◌+◌, ◌^◌, ◌++◌, [], IfOk, OnOk, OnErr, length, take, drop, get_or};
ghost use Rattle.lasp_log.specs.Log.{joined};
ghost use Rattle.lasp_dots.specs.Pieces.{many, IsParted, AreFilled};

use super::edge::Edge;
use super::piece::{Piece, push_shares};
use super::span::{Span, span_of};
use lasp_log::Share;
use std::alloc::{AllocError, Global};

/// Takes out what stands between two edges, and answers how many items these were.
pub(crate) fn take_out<T: Share, E: Edge<T>, F: Edge<T>>(
    alloc: Global,
    pieces: &mut Vec<Piece<T>>,
    from: &E,
    to: &F,
) -> Result<usize, AllocError>
    requires filled { AreFilled pieces.old.items }
    requires small { length (joined pieces.old.items) ≤ 2 ^ 32 }
    requires from { IsParted (E.in_front from.now) (joined pieces.old.items) }
    requires to { IsParted (F.in_front to.now) (joined pieces.old.items) }
    requires order { many (E.in_front from.now) (joined pieces.old.items) ≤ many (F.in_front to.now) (joined pieces.old.items) }
    ensures ok { OnOk result (joined pieces.new.items ≡ take (many (E.in_front from.now) (joined pieces.old.items)) (joined pieces.old.items) ++ drop (many (F.in_front to.now) (joined pieces.old.items)) (joined pieces.old.items)) }
    ensures count { IfOk result (λ taken. taken + many (E.in_front from.now) (joined pieces.old.items) ≡ many (F.in_front to.now) (joined pieces.old.items)) }
    ensures err { OnErr result (joined pieces.new.items ≡ joined pieces.old.items) }
    ensures full { AreFilled pieces.new.items }
{
    if pieces.len() == 0 {
        return Ok(0);
    }
    let span = span_of(pieces, from, to);
    let count = span.count;
    if count == 0 {
        return Ok(0);
    }
    let kept = kept_beside(alloc, pieces, &span)?;
    write_over(alloc, pieces, &span, kept)?;
    Ok(count)
}

/// What stands before a span in the piece where it begins, and behind it in the one where it ends.
fn kept_beside<T: Share>(
    alloc: Global,
    pieces: &[Piece<T>],
    span: &Span,
) -> Result<Vec<T>, AllocError>
    requires begin { span.now.begin.piece < length pieces.now }
    requires end { span.now.end.piece < length pieces.now }
    requires front { span.now.begin.at ≤ length (get_or pieces.now span.now.begin.piece []) }
    requires back { span.now.end.at ≤ length (get_or pieces.now span.now.end.piece []) }
    ensures { IfOk result (λ kept. kept.items ≡ take span.now.begin.at (get_or pieces.now span.now.begin.piece []) ++ drop span.now.end.at (get_or pieces.now span.now.end.piece [])) }
{
    let front = &pieces[span.begin.piece].items()[..span.begin.at];
    let back = &pieces[span.end.piece].items()[span.end.at..];
    let mut kept = Vec::with_capacity(alloc, front.len().saturating_add(back.len()))?;
    push_shares(&mut kept, front)?;
    push_shares(&mut kept, back)?;
    Ok(kept)
}

/// Puts items in place of those of the pieces that a span touches.
fn write_over<T: Share>(
    alloc: Global,
    pieces: &mut Vec<Piece<T>>,
    span: &Span,
    items: Vec<T>,
) -> Result<(), AllocError>
    requires filled { AreFilled pieces.old.items }
    requires order { span.now.begin.piece ≤ span.now.end.piece }
    requires within { span.now.end.piece < length pieces.old.items }
    ensures ok { OnOk result (joined pieces.new.items ≡ joined (take span.now.begin.piece pieces.old.items) ++ (items.items ++ joined (drop (span.now.end.piece + 1) pieces.old.items))) }
    ensures err { OnErr result (joined pieces.new.items ≡ joined pieces.old.items) }
    ensures full { AreFilled pieces.new.items }
{
    let first = span.begin.piece;
    let behind = span.end.piece + 1;
    if items.len() == 0 {
        drop_pieces(pieces, first, behind);
        return Ok(());
    }
    pieces[first] = Piece::of(alloc, items)?;
    drop_pieces(pieces, first + 1, behind);
    Ok(())
}

/// Drops the pieces from one on that stand before another.
fn drop_pieces<T: Share>(pieces: &mut Vec<Piece<T>>, first: usize, behind: usize)
    requires order { first ≤ behind }
    requires within { behind ≤ length pieces.old.items }
    ensures { pieces.new.items ≡ take first pieces.old.items ++ drop behind pieces.old.items }
{
    pieces.drain(first..behind);
}
