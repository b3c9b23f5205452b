//! A read that waits, as a future.

ghost use Rattle.std.specs.Prelude.{◌≡◌, ◌<◌, ◌≤◌, ◌⊎◌, IfOk, OnOk, None};
ghost use Rattle.std.specs.Arc.{arc_value};
ghost use Rattle.futures.specs.Poll.{IfReady, OnPending};
ghost use Rattle.futures.specs.Task.{Covers, Keeps};
ghost use Rattle.lasp_graph.specs.States.{held_of};
ghost use Rattle.lasp_core.specs.Reads.{read_of};
ghost use Rattle.lasp_reads.specs.Future.{watched_by, read_in, source_of, IsSource, IsAtThreshold, GivesOnly, HasLooked, IsBelow};

use futures::Future;
use futures::task::{Context, Poll, Source, Waker};
use lasp_core::{ReadNo, Try, Watched};
use lasp_state::State;
use std::alloc::AllocError;
use std::sync::Arc;

/// A read of a replica, ready once its variable has come to its threshold. The caller makes the source, and whoever wakes the read keeps it under the read's number.
#[derive(Drop)]
pub struct ReadFuture<'a, W> {
    watched: W,
    source: &'a Source,
    read: ReadNo,
    waker: Option<Waker>,
}

impl<'a, W: Watched> ReadFuture<'a, W> {
    /// A future of an open read, which wasn't polled yet.
    pub fn new(watched: W, source: &'a Source, r: ReadNo) -> ReadFuture<'a, W>
        requires { W.IsOpen watched (read_of r) }
        ensures watched { watched_by result ≡ watched }
        ensures read { read_in result ≡ read_of r }
        ensures source { source_of result ≡ source.now.id }
    {
        ReadFuture {
            watched,
            source,
            read: r,
            waker: None,
        }
    }
}

impl<W: Watched + Drop> Future for ReadFuture<'_, W> {
    type Output = Result<Arc<State>, AllocError>;

    ghost can_poll = { λ f. W.IsOpen (watched_by f) (read_in f) };

    ghost needs = { λ f s. IsSource f s };

    ghost gives = { λ f answer. IsAtThreshold (read_in f) answer };

    /// Asks the replica once. It costs one call of `Watched::try_poll` and takes memory for a waker alone; where there is none for that, it asks to be polled again.
    fn poll(&mut self, cx: &mut Context<'_>) -> Poll<Result<Arc<State>, AllocError>>
        requires open { W.IsOpen (watched_by self.old) (read_in self.old) }
        ensures value { IfReady result (IsAtThreshold (read_in self.old)) }
        ensures again { OnPending result (W.IsOpen (watched_by self.new) (read_in self.new)) }
        ensures same { OnPending result (GivesOnly (read_in self.new) (read_in self.old)) }
        ensures registered { OnPending result (Covers cx.new (IsSource self.new)) }
        ensures kept { Keeps cx.old cx.new }
        ensures read { read_in self.new ≡ read_in self.old }
        ensures source { source_of self.new ≡ source_of self.old }
        ensures place { W.place (watched_by self.new) ≡ W.place (watched_by self.old) }
        ensures later { (W.misses (watched_by self.old) ≤ W.misses (watched_by self.new)) × (W.looks (watched_by self.old) ≤ W.looks (watched_by self.new)) }
        ensures looked { IfReady result (λ answer. OnOk answer (HasLooked W.looks W.IsFresh (watched_by self.old) (watched_by self.new))) }
        ensures state { IfReady result (λ answer. IfOk answer (λ s. held_of (arc_value s) ≡ W.now (watched_by self.new) (read_in self.old).var)) }
        ensures waits { OnPending result ((W.misses (watched_by self.old) < W.misses (watched_by self.new)) ⊎ (HasLooked W.looks W.IsFresh (watched_by self.old) (watched_by self.new) × IsBelow (W.now (watched_by self.new)) (read_in self.old))) }
    {
        match self.watched.try_poll(&self.read) {
            Ok(Some(state)) => Poll::Ready(Ok(state)),
            Ok(None) => cx.register(self.source, &mut self.waker),
            Err(Try::Busy) => cx.yield_now(),
            Err(Try::Refused(error)) => Poll::Ready(Err(error)),
        }
    }
}
