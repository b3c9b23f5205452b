//! A hand at its store, as readers ask it, which know it by a trait alone.

ghost use Rattle.std.specs.Prelude.{◌≡◌, length, ◌<◌, Some, IfOk};
ghost use Rattle.std.specs.Arc.{arc_value};
ghost use Rattle.lasp_core.specs.Core.{IsOpen};
ghost use Rattle.lasp_core.specs.Reads.{read_of};
ghost use Rattle.lasp_store.specs.Turn.{frame_of};
ghost use Rattle.tests_store.specs.Kept.{IsFeed, IsHand};

use crate::asking::open;
use crate::feeding::{Doing, graph_of, opened, split, update};
use crate::wrong::Wrong;
use lasp_core::{ReadNo, Watched};
use lasp_fns::Library;
use lasp_graph::Graph;
use lasp_state::{State, Threshold};
use lasp_store::{Feed, Hand, Seated, Store};
use std::alloc::Global;
use std::sync::{Arc, Wait};
use std::test::Fail;

/// A state as text, where there is one.
fn told(alloc: Global, found: Option<Arc<State>>) -> Result<Option<String>, Wrong> {
    let Some(state) = found else {
        return Ok(None);
    };
    let mut told = String::new(alloc);
    state.print_into(&mut told)?;
    Ok(Some(told))
}

/// What a reader finds to whom a replica is lent: the state of a read, where it is met. Nothing, too, where the replica is busy.
fn found<W: Watched>(replica: &mut W, read: &ReadNo) -> Option<Arc<State>>
    requires { W.IsOpen replica.old (read_of read.now) }
    ensures place { W.place replica.new ≡ W.place replica.old }
    ensures open { W.IsOpen replica.new (read_of read.now) }
{
    replica.try_poll(read).ok().flatten()
}

/// What two readers find to whom a seated hand is lent, one before an update and one behind it, and the hand.
fn read_twice<'a, R: Wait>(
    rt: &'a R,
    alloc: Global,
    store: &'a Store,
    f: &mut Feed,
    graph: &Arc<Graph>,
    hand: Hand,
    read: &ReadNo,
) -> Result<(Option<String>, Option<String>, Hand), Wrong>
    requires feed { IsFeed store.now (arc_value graph.now) f.old }
    requires hand { IsHand store.now (length (arc_value graph.now)) hand }
    requires open { IsOpen (frame_of hand) hand.seen (read_of read.now) }
    ensures feed { IsFeed store.now (arc_value graph.now) f.new }
    ensures hand { IfOk result (λ told. told.2.lock ≡ store.now) }
{
    let mut seated = Seated::new(store, hand, rt);
    let before = found(&mut seated, read);
    let updated = update(rt, store, f, graph, 0, Doing::Inc, 7);
    let after = found(&mut seated, read);
    let hand = seated.into_hand();
    updated?;
    Ok((told(alloc, before)?, told(alloc, after)?, hand))
}

/// Whether a hand that was lent to readers comes back, and they found the state once it was met.
fn is_lent<R: Wait>(rt: &R, alloc: Global) -> Result<bool, Wrong> {
    let graph = graph_of(alloc, r#"[["c","counter"]]"#, &Library::new(alloc))?;
    let many = graph.len();
    if many == 0 {
        return Err(Wrong);
    }
    let (store, mut f) = opened(alloc, &graph, 0)?;
    let mut hand = split(&store, &mut f, &graph)?;
    let Some(read) = open(rt, &store, &mut hand, 0, many, Threshold::Count(5)) else {
        return Err(Wrong);
    };
    let (before, after, hand) = read_twice(rt, alloc, &store, &mut f, &graph, hand, &read)?;
    store.rejoin(&mut f, hand);
    let is_seven = match &after {
        Some(told) => told.as_str() == "7",
        None => false,
    };
    Ok(before.is_none() && is_seven && store.close(f).is_some())
}

#[test]
fn a_hand_that_is_lent_to_readers_comes_back(rt: HostRuntime) -> Result<(), Fail> {
    let is = is_lent(&rt, rt.alloc())?;
    assert!(rt; is);
    Ok(())
}
