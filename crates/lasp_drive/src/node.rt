//! What the driver asks of one node, whatever engine keeps its states.

ghost use Rattle.std.specs.Prelude.{◌≡◌, ◌<◌, ◌≤◌, ◌++◌, ◌∷◌, [], ℕ, IfOk, IfSome, OnOk, OnErr, IsTrue, length};
ghost use Rattle.lasp_drive.specs.NodePrelude.{arc_value, AreCountsAtMost, HasLeast, Decl, is_source, kind_at, meets, content_at, first_large, updated, delivered, shown_at, message_at, FitsAll, Read, IsSentTo, BringsAsMuch, IsMessage, op_of, threshold_of, library_of, NodeView, IsFresh, ShowsNoMore, HoldsLittle, IsSettled, MayUpdate, IsIdleUpdate, MayRead, Updates, Delivers, Settles, Learns, LearnsAnd, OnlyLearns, TakesIn, Extends, OnlyGrew, Sends, IsTailOf, Holds, Shows, Polls, IsNextRead, opens_next, closes_one, looks_once};
ghost use Rattle.model_journal.specs.Entry as model;

use lasp_fns::Library;
use lasp_graph::Graph;
use lasp_state::{Op, State, Threshold};
use lasp_wire::{Counts, Message};
use std::alloc::{AllocError, Global};
use std::sync::Arc;
use thiserror::Error;

/// Why a node didn't do what it was told.
#[derive(Clone, Copy, PartialEq, Eq, Debug, Error)]
pub enum NodeStop {
    /// This variable passes 65,536 rows or elements.
    #[error("variable {0} has too many rows")]
    TooLarge(u8),
    /// No memory was left.
    #[error("out of memory")]
    Memory,
}

impl From<AllocError> for NodeStop {
    ghost use Rattle.std.specs.Prelude.{◌≡◌};
    ghost use Rattle.lasp_drive.specs.declared.node.NodeStop.TheVariants.{Memory};

    ghost from_gives = { λ _ stop. stop ≡ Memory };

    fn from(_error: AllocError) -> NodeStop {
        NodeStop::Memory
    }
}

/// What a node holds beyond its message before: a message of the same counts and names as the whole, which has of an observed-remove set the rows that are new or newly dead, and all of other sources. With it a replica that has the message before comes as far as with the whole.
#[derive(Drop)]
pub struct Tail {
    /// The number of the message before.
    pub before: u32,
    /// What came since.
    pub rows: Arc<Message>,
}

/// What a node sends.
#[derive(Drop)]
pub struct Letter {
    /// The message.
    pub whole: Message,
    /// What it has beyond the node's message before, if the node tells that.
    pub tail: Option<Tail>,
}

/// One node of a run. Others may use what stands behind it: by a call it may learn results that they handed in meanwhile, so asking it changes it, too. What it answers is told of the node as it was before the call.
pub trait Node: Drop + Sized {
    /// A read that was opened at a node of this engine.
    type Read: Drop;

    // what contracts see of a node
    ghost view: { Self → NodeView };

    // where it is kept, which no call changes
    ghost Place: { Type 0 };

    ghost place: { Self → Place };

    // and of a read: its number, its variable, and the threshold that it waits for
    ghost read: { Self.Read → Read };

    /// Recalls, at no cost, what always holds of a node.
    fn recall(&self)
        ensures { ShowsNoMore (view self.now) };

    /// Updates a source: its delta is joined in and the update is counted. Where it is known that what the source holds stays as it is, as by a state that it holds already, an engine needn't look at a row.
    fn update(&mut self, alloc: Global, x: u8, op: &Op, is_known: bool) -> Result<(), NodeStop>
        requires may { MayUpdate (view self.old) x op.now }
        requires known { IsTrue is_known → IsIdleUpdate (view self.old) x op.now }
        ensures done { Updates (updated (view self.old).number x (op_of op.now) (view self.old).peer) x result (view self.new).peer }
        ensures takes { TakesIn (model.Update x (op_of op.now)) (view self.old) result (view self.new) }
        ensures place { place self.new ≡ place self.old };

    /// What a source holds, shared.
    fn source(&mut self, x: u8) -> Result<Arc<State>, AllocError>
        requires var { x < length (view self.old).decls }
        requires source { IsTrue (is_source (kind_at (view self.old).decls x)) }
        ensures holds { IfOk result (λ s. Holds (view self.old) x (arc_value s)) }
        ensures learns { OnlyLearns (view self.old) (view self.new) }
        ensures place { place self.new ≡ place self.old };

    /// What it would send: its counts and what its sources hold.
    fn message(&mut self, alloc: Global) -> Result<Message, AllocError>
        requires { IsMessage (message_at (view self.old).decls (view self.old).peer) }
        ensures message { IfOk result (λ m. m ≡ message_at (view self.old).decls (view self.old).peer) }
        ensures learns { OnlyLearns (view self.old) (view self.new) }
        ensures place { place self.new ≡ place self.old };

    /// Sends that as message i. An engine that keeps what it held when it last sent also gives what came since.
    fn letter(&mut self, alloc: Global, i: u32) -> Result<Letter, AllocError>
        requires { IsMessage (message_at (view self.old).decls (view self.old).peer) }
        ensures whole { IfOk result (λ l. l.whole ≡ message_at (view self.old).decls (view self.old).peer) }
        ensures tail { IfOk result (λ l. IfSome l.tail (IsTailOf (view self.old))) }
        ensures sends { OnOk result (Sends i (view self.old) (view self.new)) }
        ensures err { OnErr result (OnlyLearns (view self.old) (view self.new)) }
        ensures place { place self.new ≡ place self.old };

    /// Takes message i of all that were sent: its sources are joined in, and the counts become the larger ones. The part brings as much to what the node holds, so it may be looked at in place of the message.
    fn deliver(
        &mut self,
        alloc: Global,
        i: u32,
        m: &Arc<Message>,
        part: &Message,
    ) -> Result<(), NodeStop>
        requires held { HoldsLittle (view self.old) }
        requires sent { IsSentTo (view self.old).among (view self.old).decls (arc_value m.now) }
        requires part { BringsAsMuch (view self.old).decls (view self.old).peer.contents (arc_value m.now) part.now }
        ensures done { Delivers (delivered (view self.old).decls (arc_value m.now) (view self.old).peer) result (view self.new).peer }
        ensures takes { TakesIn (model.Deliver i (arc_value m.now)) (view self.old) result (view self.new) }
        ensures place { place self.new ≡ place self.old };

    /// Goes on with a graph that has one declaration more, of which nothing has happened.
    fn extend(&mut self, alloc: Global, graph: &Arc<Graph>) -> Result<(), AllocError>
        requires { (d : Decl) × (arc_value graph.now ≡ (view self.old).decls ++ d ∷ []) }
        ensures ok { (d : Decl) → arc_value graph.now ≡ (view self.old).decls ++ d ∷ [] → OnOk result (Extends d (view self.old) (view self.new)) }
        ensures err { OnErr result (OnlyLearns (view self.old) (view self.new)) }
        ensures place { place self.new ≡ place self.old };

    /// Brings every derived variable to what its process gives on the present sources.
    fn settle(&mut self, alloc: Global, lib: &Library) -> Result<(), NodeStop>
        requires held { HoldsLittle (view self.old) }
        requires fits { FitsAll (library_of lib.now) (view self.old).decls }
        ensures done { Settles (first_large 0 (shown_at (view self.old).decls (view self.old).peer)) result }
        ensures settled { OnOk result (IsSettled (view self.new)) }
        ensures grew { OnlyGrew (view self.old) (view self.new) }
        ensures place { place self.new ≡ place self.old };

    /// The state of a variable of a settled node, shared: what is shown of it.
    fn state(&mut self, x: u8) -> Result<Arc<State>, AllocError>
        requires settled { IsSettled (view self.old) }
        requires var { x < length (view self.old).decls }
        ensures shows { IfOk result (λ s. Shows (view self.old) x (arc_value s)) }
        ensures learns { OnlyLearns (view self.old) (view self.new) }
        ensures place { place self.new ≡ place self.old };

    /// Opens a read, under the next number. It waits for its variable to come to the threshold, unless it is there.
    fn open_read(
        &mut self,
        alloc: Global,
        x: u8,
        threshold: Threshold,
    ) -> Result<Self::Read, AllocError>
        requires { MayRead (view self.old) x (threshold_of threshold) }
        ensures read { IfOk result (λ r. IsNextRead (view self.old).reads x (threshold_of threshold) (read r)) }
        ensures ok { OnOk result (LearnsAnd (opens_next x (threshold_of threshold)) (view self.old) (view self.new)) }
        ensures err { OnErr result (OnlyLearns (view self.old) (view self.new)) }
        ensures place { place self.new ≡ place self.old };

    /// The state of a read's variable, shared, where it is at the threshold.
    fn poll_read(&mut self, r: &Self::Read) -> Result<Option<Arc<State>>, AllocError>
        requires settled { IsSettled (view self.old) }
        requires may { MayRead (view self.old) (read r.now).var (read r.now).threshold }
        ensures polls { IfOk result (λ found. Polls (view self.old) (read r.now) found) }
        ensures learns { OnlyLearns (view self.old) (view self.new) }
        ensures place { place self.new ≡ place self.old };

    /// Closes a read: it waits no more.
    fn close_read(&mut self, r: &Self::Read)
        ensures closed { LearnsAnd (closes_one (read r.now).number) (view self.old) (view self.new) }
        ensures place { place self.new ≡ place self.old };

    /// Whether a variable of a settled node is at the threshold, asked by a read that waits no more then. Where it is known to show what the threshold asks for at least, an engine needn't look at that. Where memory was wanting, it isn't told which reads wait.
    fn reached(
        &mut self,
        alloc: Global,
        x: u8,
        threshold: Threshold,
        is_known: bool,
    ) -> Result<bool, AllocError>
        requires settled { IsSettled (view self.old) }
        requires may { MayRead (view self.old) x (threshold_of threshold) }
        requires known { IsTrue is_known → HasLeast (threshold_of threshold) (content_at (view self.old).shown x) }
        ensures reached { IfOk result (λ reached. reached ≡ meets (threshold_of threshold) (content_at (view self.old).shown x)) }
        ensures looked { OnOk result (LearnsAnd looks_once (view self.old) (view self.new)) }
        ensures learns { Learns (view self.old) (view self.new) }
        ensures place { place self.new ≡ place self.old };

    /// How many updates of each replica it knows, copied: 8 at most.
    fn counts(&mut self, alloc: Global) -> Result<Counts, AllocError>
        ensures counts { IfOk result (λ counts. counts ≡ (view self.old).peer.counts) }
        ensures learns { OnlyLearns (view self.old) (view self.new) }
        ensures place { place self.new ≡ place self.old };

    /// Whether it counts all that these counts do: then a message of these counts brings it no update. It takes no memory and waits for nobody, and `false` tells nothing.
    fn has_counted(&self, counts: &Counts) -> bool
        requires { length counts.now ≡ length (view self.now).peer.counts }
        ensures { IsTrue result → AreCountsAtMost counts.now (view self.now).peer.counts };
}

/// A node that needs nothing but its graph to begin with.
pub trait FreshNode: Node {
    /// A node to which nothing has happened, of 8 at most.
    fn new(alloc: Global, graph: &Arc<Graph>, replica: u8, nodes: u8) -> Result<Self, AllocError>
        requires member { replica < nodes }
        requires few { nodes ≤ 8 }
        ensures { IfOk result (λ n. IsFresh (arc_value graph.now) nodes replica (Self.view n)) };
}
