//! A pass over a list, first to last.

ghost use Rattle.std.specs.Prelude.{◌≡◌, ◌∷◌, [], IfSome, IfNone, drop};
ghost use Rattle.lasp_log.specs.Log.{joined};
ghost use Rattle.lasp_dots.specs.Pieces.{AreFilled};

use super::piece::Piece;
use lasp_log::Share;
use std::marker::Model;

/// The items that are left of a pass, seen as their list.
#[derive(Drop)]
pub struct Items<'a, T: Share> {
    items: &'a [T],
    pieces: &'a [Piece<T>],
}

impl<'a, T: Share> Model for Items<'a, T> {
    ghost use Rattle.std.specs.Prelude.{List, ◌++◌};
    ghost use Rattle.std.specs.Coded.{coded_list};
    ghost use Rattle.lasp_log.specs.Log.{joined};
    ghost use Rattle.lasp_dots.specs.Pieces.{AreFilled};

    ghost Value = { List T };

    ghost coded = { coded_list T.code };

    ghost view = { λ a. a.items.now ++ joined a.pieces.now };

    ghost invariant = { λ a. AreFilled a.pieces.now };
}

impl<'a, T: Share> Items<'a, T> {
    /// A pass over the items of pieces.
    pub(crate) fn of(pieces: &'a [Piece<T>]) -> Items<'a, T>
        requires { AreFilled pieces.now }
        ensures { result ≡ joined pieces.now }
    {
        Items { items: &[], pieces }
    }

    /// The next item, which stays in the pass, in constant time.
    pub fn first(&self) -> Option<&'a T>
        ensures some { IfSome result (λ x. self.now ≡ x.now ∷ drop 1 self.now) }
        ensures none { IfNone result (self.now ≡ []) }
    {
        if let Some((first, _rest)) = self.items.split_first() {
            return Some(first);
        }
        if let Some((piece, _rest)) = self.pieces.split_first() {
            if let Some((first, _rest)) = piece.items().split_first() {
                return Some(first);
            }
        }
        None
    }

    /// Passes over the next item, if there is one, in constant time.
    pub fn skip(&mut self)
        ensures { self.new ≡ drop 1 self.old }
    {
        if let Some((_first, rest)) = self.items.split_first() {
            self.items = rest;
            return;
        }
        if let Some((piece, rest)) = self.pieces.split_first() {
            self.pieces = rest;
            if let Some((_first, rest)) = piece.items().split_first() {
                self.items = rest;
            }
        }
    }

    /// The next item, in constant time.
    pub fn next(&mut self) -> Option<&'a T>
        ensures some { IfSome result (λ x. self.old ≡ x.now ∷ self.new) }
        ensures none { IfNone result (self.old ≡ []) }
        ensures left { IfNone result (self.new ≡ []) }
    {
        let first = self.first()?;
        self.skip();
        Some(first)
    }
}
