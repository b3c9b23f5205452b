//! A store's feed as the feeder of a node.

ghost use Rattle.std.specs.Prelude.{◌≡◌, ◌+◌, false, IfOk, OnOk, length};
ghost use Rattle.model_graph.specs.Evaluation.{first_large};
ghost use Rattle.model_journal.specs.Journal.{vals};
ghost use Rattle.model_readings.specs.Lawful.{FitsAll};
ghost use Rattle.lasp_store.specs.Prelude.{evaluation, HasPassed, HasSettled, IsSeated, Settles, frame_of, graph_seen};
ghost use Rattle.lasp_store_node.specs.View.{IsFeed};

use lasp_core::{DeliverRefused, Released, Settle, UpdateRefused};
use lasp_fns::Library;
use lasp_live::Feeder;
use lasp_state::{Op, State};
use lasp_store::{Feed, Store};
use lasp_wire::Message;
use std::alloc::{AllocError, Global};
use std::marker::Model;
use std::sync::{Arc, Wait};

/// How a store is settled by tools of some kind, which have the functions that graphs may name. A feeder is generic over it, so that it can be seen as its feed alone.
pub trait Settles<T> {
    ghost use Rattle.model_functions.specs.Library.{Library};

    // the functions
    ghost library: { T → Library };

    /// As `Store::settle_all`.
    fn settle<R: Wait>(
        &self,
        rt: &R,
        alloc: Global,
        store: &Store,
        f: &mut Feed,
        tools: &T,
    ) -> Result<u64, Settle>
        requires lock { f.old.lock ≡ store.now }
        requires idle { f.old.turn ≡ false }
        requires first { f.old.number ≡ 0 }
        requires fits { FitsAll (library tools.now) (graph_seen f.old) }
        ensures pass { HasSettled f.old f.new }
        ensures seated { IsSeated store.now f.new }
        ensures graph { graph_seen f.new ≡ graph_seen f.old }
        ensures length { IfOk result (λ n. n ≡ length f.new.seen) }
        ensures settled { OnOk result (vals (frame_of f.new) f.new.seen ≡ evaluation (frame_of f.new) f.new.seen) }
        ensures once { HasPassed 0 (length (graph_seen f.new)) (length (graph_seen f.new) + 3) f.old f.new }
        ensures done { Settles (first_large 0 (evaluation (frame_of f.new) f.new.seen)) result };
}

/// By a library.
#[derive(Drop)]
pub struct ByLibrary;

impl Settles<Library> for ByLibrary {
    ghost use Rattle.lasp_graph.specs.Library.{library_of};

    ghost library = { library_of };

    fn settle<R: Wait>(
        &self,
        rt: &R,
        alloc: Global,
        store: &Store,
        f: &mut Feed,
        tools: &Library,
    ) -> Result<u64, Settle> {
        store.settle_all(rt, alloc, f, tools)
    }
}

/// The feed of a store, with what its calls need. Each call is a turn of the feed or some, so it may wait for who has the core. Contracts see it as the feed.
#[derive(Drop)]
pub struct StoreFeeder<'a, R, T, S: Settles<T>> {
    rt: &'a R,
    alloc: Global,
    store: &'a Store,
    feed: Feed,
    lib: &'a T,
    by: &'a S,
}

impl<'a, R, T, S: Settles<T>> Model for StoreFeeder<'a, R, T, S> {
    ghost use Rattle.std.specs.Coded.{codes};
    ghost use Rattle.model_readings.specs.Lawful.{FitsAll};
    ghost use Rattle.lasp_core.specs.Coded.{coded_entry, coded_frame};
    ghost use Rattle.lasp_store.specs.Turn.{Knows, graph_seen};
    ghost use Rattle.lasp_store_node.specs.View.{IsFeed};

    ghost Value = { Knows };

    ghost coded = { Prim.hlevel (codes, coded_entry, coded_frame) };

    ghost view = { λ f. f.feed };

    ghost invariant = { λ f. IsFeed f.store.now f.feed × FitsAll (S.library f.lib.now) (graph_seen f.feed) };
}

impl<'a, R, T, S: Settles<T>> StoreFeeder<'a, R, T, S> {
    /// The feeder of a store by its feed.
    pub fn new(
        rt: &'a R,
        alloc: Global,
        store: &'a Store,
        feed: Feed,
        lib: &'a T,
        by: &'a S,
    ) -> StoreFeeder<'a, R, T, S>
        requires feed { IsFeed store.now feed }
        requires fits { FitsAll (S.library lib.now) (graph_seen feed) }
        ensures { result ≡ feed }
    {
        StoreFeeder {
            rt,
            alloc,
            store,
            feed,
            lib,
            by,
        }
    }

    /// The feed, which is still that of its store and in no turn.
    pub fn into_feed(self) -> Feed
        ensures feed { result ≡ self.entry }
        ensures is_feed { IsFeed result.lock result }
    {
        self.feed
    }
}

impl<R: Wait, T, S: Settles<T>> Feeder for StoreFeeder<'_, R, T, S> {
    ghost use Rattle.lasp_store.specs.Turn.{frame_of};
    ghost use Rattle.lasp_store_node.specs.View.{Place, place_of};

    ghost Place = { Place };

    ghost place = { place_of };

    ghost frame = { frame_of };

    ghost seen = { λ f. f.seen };

    ghost own = { λ f. f.own };

    ghost told = { λ f. f.told };

    fn recall(&self) {
        self.feed.known();
    }

    fn update(&mut self, var: u8, op: &Op) -> Result<Released, UpdateRefused> {
        self.feed.known();
        let updated = self.store.update(self.rt, &mut self.feed, var, op);
        self.feed.known();
        updated
    }

    fn deliver(&mut self, number: u32, m: &Arc<Message>) -> Result<Released, DeliverRefused> {
        self.feed.known();
        let delivered = self.store.deliver(self.rt, &mut self.feed, number, m);
        self.feed.known();
        delivered
    }

    fn message(&mut self) -> Result<Message, AllocError> {
        self.feed.known();
        let message = self.store.message(self.rt, self.alloc, &mut self.feed);
        self.feed.known();
        message
    }

    fn look(&mut self, var: u8) -> Result<Arc<State>, AllocError> {
        self.feed.known();
        let state = self.store.look(self.rt, &mut self.feed, var);
        self.feed.known();
        state
    }

    fn length(&mut self) -> u64 {
        self.feed.known();
        let length = self.store.settle_length(self.rt, &mut self.feed);
        self.feed.known();
        length
    }

    fn settle_all(&mut self) -> Result<u64, Settle> {
        self.feed.known();
        let settled = self
            .by
            .settle(self.rt, self.alloc, self.store, &mut self.feed, self.lib);
        self.feed.known();
        settled
    }
}
