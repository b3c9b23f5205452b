//! A pass over a log.

ghost use Rattle.std.specs.Prelude.{◌≡◌, ◌++◌, ◌∷◌, [], IfSome, IfNone};
ghost use Rattle.lasp_log.specs.Log.{joined};

use super::chunk::Chunk;
use super::share::Share;
use std::marker::Model;

/// The items that are left of a pass, seen as their list.
#[derive(Drop)]
pub struct Items<'a, T: Share> {
    items: &'a [T],
    chunks: &'a [Chunk<T>],
    newest: &'a [T],
}

impl<'a, T: Share> Model for Items<'a, T> {
    ghost use Rattle.std.specs.Prelude.{List, ◌++◌};
    ghost use Rattle.std.specs.Coded.{coded_list};
    ghost use Rattle.lasp_log.specs.Log.{joined};

    ghost Value = { List T };

    ghost coded = { coded_list T.code };

    ghost view = { λ a. a.items.now ++ (joined a.chunks.now ++ a.newest.now) };
}

impl<'a, T: Share> Items<'a, T> {
    /// A pass over some items, then those of chunks, then the newest.
    pub(crate) fn of(items: &'a [T], chunks: &'a [Chunk<T>], newest: &'a [T]) -> Items<'a, T>
        ensures { result ≡ items.now ++ (joined chunks.now ++ newest.now) }
    {
        Items {
            items,
            chunks,
            newest,
        }
    }

    /// A pass over the same items.
    pub fn rest(&self) -> Items<'a, T>
        ensures { result ≡ self.now }
    {
        Items {
            items: self.items,
            chunks: self.chunks,
            newest: self.newest,
        }
    }

    /// The next item. It costs a step, and one for each chunk that ends.
    pub fn next(&mut self) -> Option<&'a T>
        ensures some { IfSome result (λ x. self.old ≡ x.now ∷ self.new) }
        ensures none { IfNone result (self.old ≡ []) }
    {
        while self.items.is_empty() {
            if let Some((chunk, rest)) = self.chunks.split_first() {
                self.items = chunk.items();
                self.chunks = rest;
            } else if self.newest.is_empty() {
                return None;
            } else {
                self.items = self.newest;
                self.newest = &[];
            }
        }
        let (first, rest) = self.items.split_first()?;
        self.items = rest;
        Some(first)
    }
}
