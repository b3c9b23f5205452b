//! A store with its feed and a hand in one thread, whose calls are told.

ghost use Rattle.std.specs.Prelude.{◌<◌};

use crate::asking::{ask, check, close, count, look_twice, open, poll_twice};
use crate::feeding::{
    Doing, add_below, deliver, graph_of, is_source, mark, message, opened, settle_all, split,
    try_deliver, try_mark, try_update, update,
};
use crate::told::Told;
use crate::working::work_once;
use crate::wrong::Wrong;
use lasp_core::ReadNo;
use lasp_fns::Library;
use lasp_graph::Graph;
use lasp_state::Threshold;
use lasp_store::{Feed, Hand, Store};
use lasp_wire::Message;
use std::alloc::Global;
use std::marker::Model;
use std::sync::{Arc, Wait};

/// A store, its feed, a hand, the graph that both have seen, the read that the hand opened last, and what the calls came to.
#[derive(Drop)]
pub struct Desk {
    store: Store,
    feed: Feed,
    hand: Hand,
    graph: Arc<Graph>,
    read: Option<ReadNo>,
    told: Told,
}

impl Model for Desk {
    ghost use Rattle.std.specs.Prelude.{length};
    ghost use Rattle.std.specs.Arc.{arc_value};
    ghost use Rattle.lasp_histlock.specs.Names.{LockId};
    ghost use Rattle.tests_store.specs.Kept.{IsFeed, IsHand, MayPoll};

    ghost Value = { LockId };

    ghost view = { λ a. a.store };

    ghost invariant = { λ a. IsFeed a.store (arc_value a.graph) a.feed × IsHand a.store (length (arc_value a.graph)) a.hand × MayPoll a.hand a.read };
}

impl Desk {
    /// The store of replica `me` of two.
    pub fn new(alloc: Global, text: &str, lib: &Library, me: u8) -> Result<Desk, Wrong>
        requires { me < 2 }
    {
        let graph = graph_of(alloc, text, lib)?;
        let (store, mut feed) = opened(alloc, &graph, me)?;
        let hand = split(&store, &mut feed, &graph)?;
        Ok(Desk {
            store,
            feed,
            hand,
            graph,
            read: None,
            told: Told::new(alloc),
        })
    }

    /// What the calls came to.
    pub fn into_text(self) -> Result<String, Wrong> {
        self.told.into_text()
    }

    /// An update.
    pub fn update<R: Wait>(&mut self, rt: &R, var: u8, doing: Doing, n: u32) {
        let done = update(rt, &self.store, &mut self.feed, &self.graph, var, doing, n);
        self.told.done(done);
    }

    /// An update that is tried once.
    pub fn try_update(&mut self, var: u8, doing: Doing, n: u32) {
        let done = try_update(&self.store, &mut self.feed, &self.graph, var, doing, n);
        self.told.tried(done);
    }

    /// The numbers below a bound are added to a set. Of these updates the first that was refused is told.
    pub fn add_below<R: Wait>(&mut self, rt: &R, var: u8, bound: u32) {
        let added = add_below(rt, &self.store, &mut self.feed, &self.graph, var, bound);
        if added.is_err() {
            self.told.say("an update was refused");
        }
    }

    /// A delivery.
    pub fn deliver<R: Wait>(&mut self, rt: &R, n: u32, m: &Arc<Message>) {
        let done = deliver(rt, &self.store, &mut self.feed, &self.graph, n, m);
        self.told.done(done);
    }

    /// A delivery that is tried once.
    pub fn try_deliver(&mut self, n: u32, m: &Arc<Message>) {
        let done = try_deliver(&self.store, &mut self.feed, &self.graph, n, m);
        self.told.tried(done);
    }

    /// The message that the feed sends.
    pub fn message<R: Wait>(&mut self, rt: &R, alloc: Global) -> Result<Arc<Message>, Wrong> {
        let made = message(rt, alloc, &self.store, &mut self.feed, &self.graph);
        Ok(Arc::new(alloc, made?)?)
    }

    /// What the feed marks of a variable, by a call that waits and one that tries once.
    pub fn mark<R: Wait>(&mut self, rt: &R, var: u8) {
        if !is_source(&self.graph, var) {
            return self.told.say("no source");
        }
        let one = mark(rt, &self.store, &mut self.feed, &self.graph, var);
        let other = try_mark(&self.store, &mut self.feed, &self.graph, var);
        self.told.states((one.ok(), other.ok()));
    }

    /// The store is settled.
    pub fn settle<R: Wait>(&mut self, rt: &R, alloc: Global, lib: &Library) {
        if !self.graph.fits(lib) {
            return self.told.say("another library");
        }
        let settled = settle_all(rt, alloc, &self.store, &mut self.feed, &self.graph, lib);
        self.told.settled(settled);
    }

    /// What the hand sees of a variable, by a call that waits and one that tries once.
    pub fn look<R: Wait>(&mut self, rt: &R, var: u8) {
        let many = self.graph.len();
        if u64::from(var) >= many {
            return self.told.say("no variable");
        }
        let found = look_twice(rt, &self.store, &mut self.hand, var, many);
        self.told.states(found);
    }

    /// A read, which the hand opens.
    pub fn open<R: Wait>(&mut self, rt: &R, var: u8, threshold: Threshold) {
        let many = self.graph.len();
        self.read = None;
        if u64::from(var) < many {
            self.read = open(rt, &self.store, &mut self.hand, var, many, threshold);
        }
    }

    /// What the hand finds of its read, by a call that waits and one that tries once.
    pub fn poll<R: Wait>(&mut self, rt: &R) {
        let Some(read) = &self.read else {
            return self.told.say("no read");
        };
        let many = self.graph.len();
        let found = poll_twice(rt, &self.store, &mut self.hand, many, read);
        self.told.states(found);
    }

    /// Closes the hand's read, which may be polled still.
    pub fn close<R: Wait>(&mut self, rt: &R) {
        if let Some(read) = &self.read {
            close(rt, &self.store, &mut self.hand, self.graph.len(), read);
        }
    }

    /// Of which variable the hand is asked to do a job, which it gives back.
    pub fn ask<R: Wait>(&mut self, rt: &R) {
        let var = ask(rt, &self.store, &mut self.hand, self.graph.len());
        self.told.var(var);
    }

    /// A hand of its own does a job, and comes back.
    pub fn work<R: Wait>(&mut self, rt: &R, alloc: Global, lib: &Library) {
        let (done, rows) = work_once(rt, alloc, &self.store, &mut self.feed, &self.graph, lib);
        self.told.done(done);
        self.told.count(rows, "rows");
    }

    /// Whether the store is settled, or which variable lacks inputs.
    pub fn check<R: Wait>(&mut self, rt: &R) {
        let checked = check(rt, &self.store, &mut self.hand, self.graph.len());
        self.told.checked(checked);
    }

    /// How many entries there are.
    pub fn entries(&mut self) {
        let many = count(&self.store, &mut self.hand, self.graph.len());
        self.told.count(many, "entries");
    }
}
