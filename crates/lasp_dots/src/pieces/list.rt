//! The list itself.

ghost use Rattle.std.specs.Prelude.{◌≡◌, ◌<◌, ◌≤◌, ◌++◌, ◌∷◌, [], IfOk, OnOk, OnErr, IfSome, IfNone, Some, length, take, drop, slice_get};
ghost use Rattle.std.specs.List.{insert};
ghost use Rattle.lasp_log.specs.Log.{joined};
ghost use Rattle.lasp_dots.specs.Pieces.{many, IsParted, AreFilled};

use super::edge::Edge;
use super::insertion::{push_item, put_in};
use super::items::Items;
use super::piece::Piece;
use super::removal::take_out;
use super::search::{item_at, item_behind};
use lasp_log::Share;
use std::alloc::{AllocError, Global};
use std::marker::Model;

/// The most items that a list can count.
const MOST_ITEMS: usize = 4_294_967_296;

/// A list of up to 2^32 items, seen as it is.
#[derive(Drop)]
pub struct Pieces<T: Share> {
    pieces: Vec<Piece<T>>,
    count: usize,
}

impl<T: Share> Model for Pieces<T> {
    ghost use Rattle.std.specs.Prelude.{List};
    ghost use Rattle.std.specs.Coded.{coded_list};
    ghost use Rattle.lasp_log.specs.Log.{joined};
    ghost use Rattle.lasp_dots.specs.Pieces.{AreSound};

    ghost Value = { List T };

    ghost coded = { coded_list T.code };

    ghost view = { λ a. joined a.pieces.items };

    ghost invariant = { λ a. AreSound a.pieces.items a.count };
}

impl<T: Share> Pieces<T> {
    /// The empty list. It takes no memory yet.
    pub fn new(alloc: Global) -> Pieces<T>
        ensures { result ≡ [] }
    {
        Pieces {
            pieces: Vec::new(alloc),
            count: 0,
        }
    }

    /// The number of items.
    pub fn len(&self) -> usize
        ensures { result ≡ length self.now }
    {
        self.count
    }

    /// An equal list; it shares the items, so that the cost is one share for each piece of mostly 64 to 128 items.
    pub fn share(&self) -> Result<Pieces<T>, AllocError>
        ensures { IfOk result (λ p. p ≡ self.now) }
    {
        let mut pieces = Vec::with_capacity(*self.pieces.allocator(), self.pieces.len())?;
        for piece in &self.pieces {
            pieces.push(piece.share()?)?;
        }
        Ok(Pieces {
            pieces,
            count: self.count,
        })
    }

    /// Appends an item. It costs no search.
    pub fn push(&mut self, item: T) -> Result<(), AllocError>
        ensures ok { OnOk result (self.new ≡ self.old ++ item ∷ []) }
        ensures err { OnErr result (self.new ≡ self.old) }
    {
        if self.count == MOST_ITEMS {
            return Err(AllocError);
        }
        let alloc = *self.pieces.allocator();
        push_item(alloc, &mut self.pieces, item)?;
        self.count += 1;
        Ok(())
    }

    /// Takes out what stands between two edges. It costs two searches, and a copy of what is left of the pieces in which they are.
    pub fn take_between<E: Edge<T>, F: Edge<T>>(
        &mut self,
        from: &E,
        to: &F,
    ) -> Result<(), AllocError>
        requires from { IsParted (E.in_front from.now) self.old }
        requires to { IsParted (F.in_front to.now) self.old }
        requires order { many (E.in_front from.now) self.old ≤ many (F.in_front to.now) self.old }
        ensures ok { OnOk result (self.new ≡ take (many (E.in_front from.now) self.old) self.old ++ drop (many (F.in_front to.now) self.old) self.old) }
        ensures err { OnErr result (self.new ≡ self.old) }
    {
        let alloc = *self.pieces.allocator();
        let taken = take_out(alloc, &mut self.pieces, from, to)?;
        self.count -= taken;
        Ok(())
    }

    /// A pass over the items.
    pub fn iter(&self) -> Items<'_, T>
        ensures { result ≡ self.now }
    {
        Items::of(&self.pieces)
    }

    /// The item at a place, counted from 0. It costs a step for each piece before it: a pass is better done by `iter`.
    pub fn at(&self, place: usize) -> &T
        requires { place < length self.now }
        ensures { slice_get self.now place ≡ Some result.now }
    {
        item_at(&self.pieces, place)
    }

    /// The first item behind an edge, where there is one. It costs a search.
    pub fn behind<E: Edge<T>>(&self, edge: &E) -> Option<&T>
        requires { IsParted (E.in_front edge.now) self.now }
        ensures some { IfSome result (λ x. slice_get self.now (many (E.in_front edge.now) self.now) ≡ Some x.now) }
        ensures none { IfNone result (length self.now ≤ many (E.in_front edge.now) self.now) }
    {
        item_behind(&self.pieces, edge)
    }
}

impl<T: Share + Edge<T>> Pieces<T> {
    /// Puts an item in behind those that pass it. It costs a search, and a copy of its piece where other lists have that.
    pub fn put(&mut self, item: T) -> Result<(), AllocError>
        requires { IsParted (T.in_front item) self.old }
        ensures ok { OnOk result (self.new ≡ insert self.old (many (T.in_front item) self.old) item) }
        ensures err { OnErr result (self.new ≡ self.old) }
    {
        if self.count == MOST_ITEMS {
            return Err(AllocError);
        }
        let alloc = *self.pieces.allocator();
        put_in(alloc, &mut self.pieces, item)?;
        self.count += 1;
        Ok(())
    }
}
