//! A feed that is lent to a read that waits, and comes back whatever becomes of the read.

ghost use Rattle.std.specs.Prelude.{◌≡◌, Option, Some, None, IfSome, IsTrue, is_some};
ghost use Rattle.std.specs.Arc.{arc_value};
ghost use Rattle.model_states.specs.Threshold.{meets, suits};
ghost use Rattle.model_core.specs.Known.{HasLeast};
ghost use Rattle.lasp_graph.specs.States.{held_of};
ghost use Rattle.lasp_core.specs.Reads.{read_of};
ghost use Rattle.lasp_store.specs.Turn.{Knows, frame_of};
ghost use Rattle.lasp_store_node.specs.View.{IsFeed};
ghost use Rattle.lasp_store_node.specs.Lent.{IsHeld, IsLent, IsLentFrom};

use core::mem::replace_with;
use futures::executor::block_on;
use futures::task::Source;
use lasp_core::{ReadNo, Try, Watched, reads_stay_open};
use lasp_reads::ReadFuture;
use lasp_state::State;
use lasp_store::{Feed, Store};
use std::alloc::{AllocError, AllocGlobal};
use std::io;
use std::marker::{Brand, Model, PhantomData};
use std::random::RandomSource;
use std::sync::{Arc, Wait};

/// What came of a read: refused where nobody could wait for it, else the state, or memory was wanting.
type Answer = io::Result<Result<Arc<State>, AllocError>>;

/// Which feed was lent, chosen at each loan.
trait Loan {
    // what the feed knew
    ghost start: { Option Knows };
}

impl Loan for Brand {
    ghost start = { None };
}

/// A lent feed. Whoever has it by a `&mut` may do with it what its type allows, so behind a loan it is in the place where it was, and has only learned.
#[derive(Drop)]
struct Lent<'a, L: Loan> {
    store: &'a Store,
    feed: Feed,
    loan: PhantomData<L>,
}

impl<'a, L: Loan> Model for Lent<'a, L> {
    ghost use Rattle.std.specs.Prelude.{◌≡◌};
    ghost use Rattle.std.specs.Coded.{codes};
    ghost use Rattle.lasp_core.specs.Coded.{coded_entry, coded_frame};
    ghost use Rattle.lasp_store.specs.Turn.{Knows};
    ghost use Rattle.lasp_store_node.specs.Lent.{IsLentFrom};

    ghost Value = { Knows };

    ghost coded = { Prim.hlevel (codes, coded_entry, coded_frame) };

    ghost view = { λ l. l.feed };

    ghost invariant = { λ l. (l.feed.lock ≡ l.store.now) × IsLentFrom L.start l.feed };
}

impl<'a, L: Loan> Lent<'a, L> {
    fn new(store: &'a Store, feed: Feed) -> Lent<'a, L>
        requires feed { IsFeed store.now feed }
        requires start { L.start ≡ Some feed }
        ensures { result ≡ feed }
    {
        Lent {
            store,
            feed,
            loan: PhantomData,
        }
    }

    fn end(self) -> Feed
        ensures { IsLentFrom L.start result }
    {
        self.feed
    }
}

/// The state, where it is at the read's threshold, of which it is known to hold what that asks for at least.
fn reached(r: &ReadNo, state: Arc<State>) -> Option<Arc<State>>
    requires fits { IsTrue (suits (read_of r.now).threshold (held_of (arc_value state)).shape) }
    requires known { HasLeast (read_of r.now).threshold (held_of (arc_value state)).content }
    ensures met { is_some result ≡ meets (read_of r.now).threshold (held_of (arc_value state)).content }
    ensures state { IfSome result (λ s. held_of (arc_value s) ≡ held_of (arc_value state)) }
{
    if r.is_met_with(&state, true) {
        Some(state)
    } else {
        None
    }
}

impl<L: Loan> Watched for Lent<'_, L> {
    ghost use Rattle.std.specs.Prelude.{ℕ, length};
    ghost use Rattle.lasp_histlock.specs.Names.{LockId};
    ghost use Rattle.lasp_core.specs.Core.{state_after};
    ghost use Rattle.lasp_store.specs.Turn.{frame_of};

    ghost Place = { LockId × ℕ };

    ghost place = { λ p. (p.lock, p.number) };

    ghost misses = { λ p. p.misses };

    ghost looks = { λ p. p.looks };

    ghost now = { λ p x. state_after (frame_of p) p.seen x };

    ghost IsFresh = { λ p. length p.seen ≡ p.told };

    ghost IsOpen = { λ p r. IsHeld (frame_of p) p.seen r };

    fn try_poll(&mut self, r: &ReadNo) -> Result<Option<Arc<State>>, Try<AllocError>> {
        reads_stay_open();
        self.feed.known();
        let looked = self.store.try_look(&mut self.feed, r.var());
        self.feed.known();
        match looked {
            Ok(state) => Ok(reached(r, state)),
            Err(why) => Err(why),
        }
    }
}

/// Reads through a future that has the feed by a `&mut`.
fn read_lent<R: Wait + RandomSource + AllocGlobal, L: Loan>(
    rt: &R,
    store: &Store,
    feed: Feed,
    read: ReadNo,
) -> (Feed, Answer)
    requires feed { IsFeed store.now feed }
    requires start { L.start ≡ Some feed }
    requires held { IsHeld (frame_of feed) feed.seen (read_of read) }
    ensures { IsLentFrom L.start result.0 }
{
    let mut lent = Lent::<'_, L>::new(store, feed);
    let source = Source::new();
    let answer = block_on(rt, ReadFuture::new(&mut lent, &source, read));
    (lent.end(), answer)
}

/// The same at a loan of its own.
fn lend<R: Wait + RandomSource + AllocGlobal>(
    rt: &R,
    store: &Store,
    feed: Feed,
    read: ReadNo,
) -> (Feed, Answer)
    requires feed { IsFeed store.now feed }
    requires held { IsHeld (frame_of feed) feed.seen (read_of read) }
    ensures { IsLent feed result.0 }
{
    read_lent::<R, Brand>(rt, store, feed, read)
}

/// Waits on this thread until a read is at its threshold, by a future that has the feed. Where waiting is refused, nothing is read, and the feed is back all the same.
pub(crate) fn await_read<R: Wait + RandomSource + AllocGlobal>(
    rt: &R,
    store: &Store,
    feed: &mut Feed,
    read: ReadNo,
) -> Result<(), AllocError>
    requires feed { IsFeed store.now feed.old }
    requires held { IsHeld (frame_of feed.old) feed.old.seen (read_of read) }
    ensures { IsLent feed.old feed.new }
{
    let answer = replace_with(
        feed,
        read,
        |feed: Feed, read: ReadNo| -> (Feed, Answer)
            requires { IsFeed store.now feed × IsHeld (frame_of feed) feed.seen (read_of read) }
            ensures { IsLent feed result.0 }
        { lend(rt, store, feed, read) },
    );
    match answer {
        Ok(Ok(_)) | Err(_) => Ok(()),
        Ok(Err(error)) => Err(error),
    }
}
