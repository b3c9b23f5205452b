//! What a node publishes at points, and the spy by which it sees that without its store.

ghost use Rattle.std.specs.Prelude.{◌≡◌, ◌<◌, ◌^◌, [], IfSome, length};
ghost use Rattle.std.specs.Arc.{arc_value};
ghost use Rattle.lasp_graph.specs.States.{held_of};
ghost use Rattle.lasp_store.specs.Shelves.{IsShelfOf};
ghost use Rattle.lasp_store.specs.Turn.{HadTurn};
ghost use Rattle.lasp_store_node.specs.View.{IsFeed};
ghost use Rattle.lasp_store_node.specs.Window.{IsShownLast};

use lasp_snap::{Shelf, Spy};
use lasp_state::State;
use lasp_store::{Feed, Store};
use std::alloc::Global;
use std::marker::Model;
use std::sync::{Arc, Wait};

/// As many readings a spy takes at most.
const MOST: u64 = 9_223_372_036_854_775_807;

/// A shelf of a node's feed, and a spy there. The shelf is closed where the window is dropped. Contracts see it as the shelf.
pub(crate) struct Window<'a, R: Wait> {
    rt: &'a R,
    shelf: Shelf,
    spy: Spy,
}

impl<R: Wait> Drop for Window<'_, R> {
    fn drop(self) {
        let Window {
            rt,
            shelf,
            spy: _spy,
        } = self;
        shelf.close(rt);
    }
}

impl<'a, R: Wait> Model for Window<'a, R> {
    ghost use Rattle.std.specs.Prelude.{◌≡◌};
    ghost use Rattle.lasp_snap.specs.Views.{ShelfView, coded_shelf};

    ghost Value = { ShelfView };

    ghost coded = { coded_shelf };

    ghost view = { λ w. w.shelf };

    ghost invariant = { λ w. w.spy.shelf ≡ w.shelf.shelf };
}

impl<'a, R: Wait> Window<'a, R> {
    /// A window where the feed has published what it then has seen; none where memory is wanting.
    pub(crate) fn open(
        rt: &'a R,
        store: &Store,
        alloc: Global,
        feed: &mut Feed,
    ) -> Option<Window<'a, R>>
        requires { IsFeed store.now feed.old }
        ensures turn { HadTurn [] feed.old feed.new }
        ensures shelf { IfSome result (IsShelfOf feed.new) }
    {
        match store.open_shelf(rt, alloc, feed, 1) {
            Ok((shelf, mut spies)) => match spies.take_spy() {
                Some(spy) => Some(Window { rt, shelf, spy }),
                None => {
                    shelf.close(rt);
                    None
                }
            },
            Err(_) => None,
        }
    }

    /// Whether the spy sees a version after so many entries.
    pub(crate) fn is_after(&self, entries: u64) -> bool {
        self.spy.entries() == entries
    }

    /// The state of a variable by the spy, where it sees all that was published and that is after so many entries. It waits for nobody.
    #[tactic(auto, using(crate::proofs::WindowLaws::peeks))]
    pub(crate) fn peek(&mut self, x: u8, entries: u64) -> Option<Arc<State>>
        ensures same { self.new ≡ self.old }
        ensures shown { IfSome result (λ s. IsShownLast self.old.published entries x (held_of (arc_value s))) }
    {
        let looks = self.spy.looks();
        if self.spy.vars() <= x || MOST <= looks {
            return None;
        }
        let Ok(told) = self.shelf.tell() else {
            return None;
        };
        self.spy.learn(told);
        let Ok(state) = self.spy.peek(x) else {
            return None;
        };
        let has_looked = looks < self.spy.looks();
        if has_looked && self.spy.place() == self.shelf.place() && self.spy.entries() == entries {
            Some(state)
        } else {
            None
        }
    }
}
