//! The node: a store, asked by its feed.

ghost use Rattle.std.specs.Prelude.{◌≡◌, ◌<◌, None, IfOk, OnOk, length};
ghost use Rattle.std.specs.Arc.{arc_value};
ghost use Rattle.model_graph.specs.Evaluation.{first_large};
ghost use Rattle.model_world.specs.World.{message_at, delivered, shown_at};
ghost use Rattle.model_journal.specs.Entry.{Frame};
ghost use Rattle.model_journal.specs.Entry as model;
ghost use Rattle.model_journal.specs.Journal.{val};
ghost use Rattle.model_core.specs.Known.{HasLeast};
ghost use Rattle.model_core.specs.Peer.{peer_of};
ghost use Rattle.model_runs.specs.Held.{IsSentTo};
ghost use Rattle.model_runs.specs.Part.{BringsAsMuch};
ghost use Rattle.model_readings.specs.Lawful.{FitsAll};
ghost use Rattle.lasp_graph.specs.Library.{library_of};
ghost use Rattle.lasp_graph.specs.States.{held_of};
ghost use Rattle.lasp_core.specs.Core.{IsOpen, state_after};
ghost use Rattle.lasp_core.specs.Reads.{read_of};
ghost use Rattle.lasp_state.specs.Threshold.{threshold_of};
ghost use Rattle.lasp_histlock.specs.Passes.{first_pass};
ghost use Rattle.lasp_store.specs.Letter.{IsSent};
ghost use Rattle.lasp_store.specs.Turn.{graph_seen, frame_of};
ghost use Rattle.lasp_drive.specs.Node.{IsFresh, IsSettled, OnlyGrew, OnlyLearns, Settles, Delivers, TakesIn};
ghost use Rattle.lasp_store_node.specs.Lent.{IsHeld};
ghost use Rattle.lasp_store_node.specs.View.{seen, since, node_seen, Place, place_of, IsFeed, AreCounted};

use crate::counted::joined;
use crate::last::{behind, entries_then};
use crate::lent::await_read;
use crate::shows::MOST_VARS;
use crate::window::Window;
use lasp_core::{DeliverRefused, ReadNo, Settle, UpdateRefused, is_met_by};
use lasp_drive::{Letter, Node, NodeStop};
use lasp_fns::Library;
use lasp_graph::Graph;
use lasp_node::LastSent;
use lasp_state::{Op, State, Threshold};
use lasp_store::{Feed, Sent, Store};
use lasp_wire::{Counts, Message};
use std::alloc::{AllocError, AllocGlobal, Global};
use std::marker::Model;
use std::random::RandomSource;
use std::sync::{Arc, Wait};

/// A node whose replica is in a store, which others may use meanwhile by hands of their own. Each call is a turn of the feed, so it may wait for who has the core; settling takes a turn or two for each variable, and then publishes what is settled on a shelf of the node's, by which a state is shown without a turn. Contracts see it as its feed, and when it last sent.
#[derive(Drop)]
pub struct StoreNode<'a, R: Wait> {
    pub(crate) rt: &'a R,
    pub(crate) store: &'a Store,
    pub(crate) feed: Feed,
    last: Option<LastSent>,
    /// Where it published at the last point. It is closed before a change: what is published is shared, and a shared state is copied where it changes.
    pub(crate) window: Option<Window<'a, R>>,
    /// What it counted at least, as far as messages that it took told.
    known: Option<Counts>,
    /// Which variables were shown.
    pub(crate) shown: [bool; MOST_VARS],
}

impl<'a, R: Wait> Model for StoreNode<'a, R> {
    ghost use Rattle.std.specs.Coded.{codes};
    ghost use Rattle.lasp_core.specs.Coded.{coded_entry, coded_frame};
    ghost use Rattle.lasp_store_node.specs.View.{Seen, seen};
    ghost use Rattle.lasp_store_node.specs.Window.{IsOwn};

    ghost Value = { Seen };

    ghost coded = { Prim.hlevel (codes, coded_entry, coded_frame) };

    ghost view = { λ n. seen n.feed n.last };

    ghost invariant = { λ n. IsOwn n.store.now n.feed n.last n.window n.known };
}

impl<'a, R: Wait> StoreNode<'a, R> {
    /// The node of a store and its feed.
    pub fn new(rt: &'a R, store: &'a Store, feed: Feed) -> StoreNode<'a, R>
        requires { IsFeed store.now feed }
        ensures feed { result ≡ seen feed None }
        ensures fresh { (X : Frame) → feed ≡ first_pass store.now X → IsFresh X.opening X.nodes X.replica (node_seen result) }
    {
        StoreNode {
            rt,
            store,
            feed,
            last: None,
            window: None,
            known: None,
            shown: [false; MOST_VARS],
        }
    }

    /// The feed, which is still that of the node's store and in no turn. The node's shelf is closed.
    pub fn into_feed(self) -> Feed
        ensures feed { result ≡ self.entry.feed }
        ensures is_feed { IsFeed result.lock result }
    {
        self.feed
    }
}

impl<R: Wait> StoreNode<'_, R> {
    /// The state of a variable, shared.
    #[tactic(auto, using(crate::proofs::WindowLaws::windows, crate::proofs::CountedLaws::stays_counted))]
    pub(crate) fn look(&mut self, x: u8) -> Result<Arc<State>, AllocError>
        requires { x < length (graph_seen self.old.feed) }
        ensures state { IfOk result (λ s. held_of (arc_value s) ≡ state_after (frame_of self.new.feed) self.new.feed.seen x) }
        ensures learns { OnlyLearns (node_seen self.old) (node_seen self.new) }
        ensures place { place_of self.new.feed ≡ place_of self.old.feed }
    {
        self.feed.known();
        let state = self.store.look(self.rt, &mut self.feed, x);
        self.feed.known();
        state
    }

    /// Opens a read of a variable that is known to hold what the threshold asks for at least.
    #[tactic(auto, using(crate::proofs::WindowLaws::windows, crate::proofs::CountedLaws::stays_counted))]
    fn open(&mut self, x: u8, threshold: Threshold) -> Result<ReadNo, AllocError>
        requires open { IsOpen (frame_of self.old.feed) self.old.feed.seen (record { number = 0; var = x; threshold = threshold_of threshold }) }
        requires known { HasLeast (threshold_of threshold) (val (frame_of self.old.feed) self.old.feed.seen x) }
        ensures held { IfOk result (λ r. IsHeld (frame_of self.new.feed) self.new.feed.seen (read_of r)) }
        ensures learns { OnlyLearns (node_seen self.old) (node_seen self.new) }
        ensures place { place_of self.new.feed ≡ place_of self.old.feed }
    {
        self.feed.known();
        let read = self
            .store
            .open_read_with(self.rt, &mut self.feed, x, threshold, true);
        self.feed.known();
        read
    }

    /// What it sends.
    #[tactic(auto, using(crate::proofs::WindowLaws::windows, crate::proofs::CountedLaws::stays_counted))]
    fn sent(&mut self, alloc: Global) -> Result<Message, AllocError>
        ensures message { IfOk result (λ m. m ≡ message_at (graph_seen self.old.feed) (peer_of (frame_of self.old.feed) self.old.feed.seen)) }
        ensures learns { OnlyLearns (node_seen self.old) (node_seen self.new) }
        ensures place { place_of self.new.feed ≡ place_of self.old.feed }
    {
        self.feed.known();
        let message = self.store.message(self.rt, alloc, &mut self.feed);
        self.feed.known();
        message
    }

    /// What it sends, and what came since it last sent, if it ever did.
    #[tactic(auto, using(crate::proofs::WindowLaws::windows, crate::proofs::CountedLaws::stays_counted))]
    fn sent_since(&mut self, alloc: Global) -> Result<Sent, AllocError>
        ensures sent { IfOk result (IsSent (frame_of self.new.feed) self.new.feed.seen (since self.old.last)) }
        ensures last { self.new.last ≡ self.old.last }
        ensures learns { OnlyLearns (node_seen self.old) (node_seen self.new) }
        ensures place { place_of self.new.feed ≡ place_of self.old.feed }
    {
        let then = entries_then(&self.last);
        self.feed.known();
        let sent = self.store.letter(self.rt, alloc, &mut self.feed, then);
        self.feed.known();
        sent
    }

    /// Takes message i, by a part that brings as much.
    fn take(&mut self, i: u32, m: &Arc<Message>, part: &Message) -> Result<(), NodeStop>
        requires sent { IsSentTo (node_seen self.old).among (node_seen self.old).decls (arc_value m.now) }
        requires part { BringsAsMuch (node_seen self.old).decls (node_seen self.old).peer.contents (arc_value m.now) part.now }
        ensures done { Delivers (delivered (node_seen self.old).decls (arc_value m.now) (node_seen self.old).peer) result (node_seen self.new).peer }
        ensures takes { TakesIn (model.Deliver i (arc_value m.now)) (node_seen self.old) result (node_seen self.new) }
        ensures counted { OnOk result (AreCounted (arc_value m.now).counts self.new.feed) }
        ensures place { place_of self.new.feed ≡ place_of self.old.feed }
    {
        self.window = None;
        self.feed.known();
        match self.store.deliver_part(self.rt, &mut self.feed, i, m, part) {
            Ok(_) => {
                self.feed.known();
                Ok(())
            }
            Err(DeliverRefused::TooManyRows(x)) => {
                self.feed.known();
                Err(NodeStop::TooLarge(x))
            }
            Err(DeliverRefused::Memory) => {
                self.feed.known();
                Err(NodeStop::Memory)
            }
            Err(DeliverRefused::WrongGraph) => {
                self.feed.known();
                unreachable!()
            }
        }
    }

    /// Keeps that these counts are counted.
    fn note(&mut self, alloc: Global, counts: &Counts)
        requires { AreCounted counts.now self.old.feed }
        ensures { self.new ≡ self.old }
    {
        self.known = joined(self.known.take(), alloc, counts);
    }
}

impl<R: Wait> StoreNode<'_, R> {
    /// Settles the store.
    #[tactic(auto, using(crate::proofs::WindowLaws::windows, crate::proofs::CountedLaws::stays_counted))]
    fn settle_all(&mut self, alloc: Global, lib: &Library) -> Result<(), NodeStop>
        requires { FitsAll (library_of lib.now) (graph_seen self.old.feed) }
        ensures done { Settles (first_large 0 (shown_at (graph_seen self.old.feed) (node_seen self.old).peer)) result }
        ensures settled { OnOk result (IsSettled (node_seen self.new)) }
        ensures grew { OnlyGrew (node_seen self.old) (node_seen self.new) }
        ensures place { place_of self.new.feed ≡ place_of self.old.feed }
    {
        self.feed.known();
        let settled = self.store.settle_all(self.rt, alloc, &mut self.feed, lib);
        self.feed.known();
        match settled {
            Ok(_) => Ok(()),
            Err(Settle::TooLarge(x)) => Err(NodeStop::TooLarge(x)),
            Err(Settle::Memory) => Err(NodeStop::Memory),
        }
    }
}

impl<R: Wait + RandomSource + AllocGlobal> StoreNode<'_, R> {
    /// Opens a read of a variable that is known to be at its threshold, and waits for it.
    #[tactic(auto, using(crate::proofs::WindowLaws::windows, crate::proofs::CountedLaws::stays_counted))]
    fn read_to_threshold(&mut self, x: u8, threshold: Threshold) -> Result<(), AllocError>
        requires open { IsOpen (frame_of self.old.feed) self.old.feed.seen (record { number = 0; var = x; threshold = threshold_of threshold }) }
        requires known { HasLeast (threshold_of threshold) (val (frame_of self.old.feed) self.old.feed.seen x) }
        ensures learns { OnlyLearns (node_seen self.old) (node_seen self.new) }
        ensures place { place_of self.new.feed ≡ place_of self.old.feed }
    {
        let read = self.open(x, threshold)?;
        await_read(self.rt, self.store, &mut self.feed, read)
    }
}

impl<R: Wait + RandomSource + AllocGlobal> Node for StoreNode<'_, R> {
    type Read = ReadNo;

    ghost view = { λ n. node_seen n };

    ghost Place = { Place };

    ghost place = { λ n. place_of n.feed };

    ghost read = { read_of };

    fn recall(&self) {
        self.feed.known();
    }

    fn update(&mut self, _alloc: Global, x: u8, op: &Op, is_known: bool) -> Result<(), NodeStop> {
        self.window = None;
        self.feed.known();
        let store = self.store;
        match store.update_with(self.rt, &mut self.feed, x, op, is_known) {
            Ok(_) => {
                self.feed.known();
                Ok(())
            }
            Err(UpdateRefused::TooManyRows) => {
                self.feed.known();
                Err(NodeStop::TooLarge(x))
            }
            Err(UpdateRefused::Memory) => {
                self.feed.known();
                Err(NodeStop::Memory)
            }
            Err(_) => {
                self.feed.known();
                unreachable!()
            }
        }
    }

    fn source(&mut self, x: u8) -> Result<Arc<State>, AllocError> {
        self.look(x)
    }

    fn message(&mut self, alloc: Global) -> Result<Message, AllocError> {
        self.sent(alloc)
    }

    fn letter(&mut self, alloc: Global, i: u32) -> Result<Letter, AllocError> {
        let Sent {
            whole,
            tail,
            entries,
        } = self.sent_since(alloc)?;
        let tail = behind(alloc, &self.last, tail)?;
        self.last = Some(LastSent { number: i, entries });
        Ok(Letter { whole, tail })
    }

    fn deliver(
        &mut self,
        alloc: Global,
        i: u32,
        m: &Arc<Message>,
        part: &Message,
    ) -> Result<(), NodeStop> {
        match self.take(i, m, part) {
            Ok(()) => {
                self.note(alloc, m.counts());
                Ok(())
            }
            Err(stop) => Err(stop),
        }
    }

    fn extend(&mut self, _alloc: Global, graph: &Arc<Graph>) -> Result<(), AllocError> {
        self.window = None;
        self.feed.known();
        let extended = self
            .store
            .extend(self.rt, &mut self.feed, graph.at(graph.len() - 1));
        self.feed.known();
        extended
    }

    #[tactic(auto, using(crate::proofs::WindowLaws::shows))]
    fn settle(&mut self, alloc: Global, lib: &Library) -> Result<(), NodeStop> {
        self.settle_all(alloc, lib)?;
        self.publish(alloc);
        Ok(())
    }

    fn state(&mut self, x: u8) -> Result<Arc<State>, AllocError> {
        self.show(x)
    }

    #[tactic(auto, using(crate::proofs::WindowLaws::windows, crate::proofs::CountedLaws::stays_counted))]
    fn open_read(
        &mut self,
        _alloc: Global,
        x: u8,
        threshold: Threshold,
    ) -> Result<ReadNo, AllocError> {
        self.feed.known();
        let read = self.store.open_read(self.rt, &mut self.feed, x, threshold);
        self.feed.known();
        read
    }

    fn poll_read(&mut self, r: &ReadNo) -> Result<Option<Arc<State>>, AllocError> {
        let state = self.look(r.var())?;
        if r.is_met_by(&state) {
            Ok(Some(state))
        } else {
            Ok(None)
        }
    }

    #[tactic(auto, using(crate::proofs::WindowLaws::windows, crate::proofs::CountedLaws::stays_counted))]
    fn close_read(&mut self, r: &ReadNo) {
        self.feed.known();
        self.store.close_read(self.rt, &mut self.feed, r);
        self.feed.known();
    }

    fn reached(
        &mut self,
        _alloc: Global,
        x: u8,
        threshold: Threshold,
        is_known: bool,
    ) -> Result<bool, AllocError> {
        let state = self.look(x)?;
        if !is_met_by(&threshold, &state, is_known) {
            return Ok(false);
        }
        // it is at the threshold: where waiting is refused, the look has told so
        self.read_to_threshold(x, threshold)?;
        Ok(true)
    }

    fn counts(&mut self, alloc: Global) -> Result<Counts, AllocError> {
        let message = self.sent(alloc)?;
        Counts::from_slice(alloc, message.counts().as_slice())
    }

    // (what it counted besides may be told by a message that it took)
    fn has_counted(&self, counts: &Counts) -> bool {
        match &self.known {
            Some(known) => known.len() == counts.len() && counts.is_at_most(known),
            None => false,
        }
    }
}
