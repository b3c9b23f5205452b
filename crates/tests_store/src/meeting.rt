//! A stored function that stays in its call until another thread has used the store.

ghost use Rattle.std.specs.Prelude.{◌<◌, length};
ghost use Rattle.std.specs.Arc.{arc_value};
ghost use Rattle.model_values.specs.Size.{IsSized};
ghost use Rattle.lasp_value.specs.Value.{val_of};
ghost use Rattle.lasp_fns.specs.Answers.{Answers};
ghost use Rattle.tests_store.specs.Kept.{IsFeed, IsHand};

use crate::asking::try_look;
use crate::feeding::{Doing, graph_of, opened, settle, split, update};
use crate::wrong::Wrong;
use lasp_fns::{Library, MapOp, MapOps, StoredMap, apply_map};
use lasp_graph::Graph;
use lasp_store::{Feed, Hand, Store};
use lasp_value::Value;
use std::alloc::{AllocError, Global};
use std::sync::atomic::{AtomicBool, Ordering};
use std::sync::{Arc, Wait};
use std::test::Fail;
use std::thread::{Threads, join, yield_now};

/// How often either party looks for the other at most.
const MOST: u32 = 10_000_000;

/// Where a stored function and a hand meet.
#[derive(Drop)]
struct Meeting {
    // the function is in its call
    is_inside: AtomicBool,
    // the hand has used the store meanwhile
    is_served: AtomicBool,
    // the function saw that before it left
    was_served: AtomicBool,
}

impl Meeting {
    fn new() -> Meeting {
        Meeting {
            is_inside: AtomicBool::new(false),
            is_served: AtomicBool::new(false),
            was_served: AtomicBool::new(false),
        }
    }

    /// Stays until the hand was served, but not for long.
    fn stay(&self) {
        self.is_inside.store(true, Ordering::SeqCst);
        for _ in 0..MOST {
            if self.is_served.load(Ordering::SeqCst) {
                self.was_served.store(true, Ordering::SeqCst);
                return;
            }
            yield_now();
        }
    }
}

/// Whether the function is in its call, and the store wasn't busy when the hand looked at a variable.
fn has_looked(store: &Store, h: &mut Hand, many: u64, meeting: &Meeting) -> bool
    requires hand { IsHand store.now many h.old }
    requires some { 0 < many }
    ensures { IsHand store.now many h.new }
{
    if !meeting.is_inside.load(Ordering::SeqCst) {
        return false;
    }
    try_look(store, h, 0, many).is_ok()
}

/// Looks at a variable once the function is in its call, as soon as the store isn't busy.
fn look_meanwhile(store: &Store, h: &mut Hand, many: u64, meeting: &Meeting)
    requires hand { IsHand store.now many h.old }
    requires some { 0 < many }
{
    for _ in 0..MOST {
        if has_looked(store, h, many, meeting) {
            meeting.is_served.store(true, Ordering::SeqCst);
            return;
        }
        yield_now();
    }
}

/// Settles a store while a hand looks at it, and tells whether it was settled.
fn settle_beside<R: Threads + Wait + Sync>(
    rt: &R,
    alloc: Global,
    store: &Store,
    mut f: Feed,
    mut hand: Hand,
    graph: &Arc<Graph>,
    lib: &Library,
    meeting: &Meeting,
) -> bool
    requires feed { IsFeed store.now (arc_value graph.now) f }
    requires hand { IsHand store.now (length (arc_value graph.now)) hand }
{
    let many = graph.len();
    if many == 0 {
        return false;
    }
    let (_, is_settled) = join(
        rt,
        move || -> ()
            requires { (0 < many) × IsHand store.now many hand }
        { look_meanwhile(store, &mut hand, many, meeting) },
        move || -> bool
            requires { IsFeed store.now (arc_value graph.now) f }
        { settle(rt, alloc, store, &mut f, graph, lib).is_ok() },
    );
    is_settled
}

/// Whether a store of a set of one row and its map was settled while a hand looked at it.
fn is_settled_beside<R: Threads + Wait + Sync>(
    rt: &R,
    alloc: Global,
    lib: &Library,
    meeting: &Meeting,
) -> Result<bool, Wrong> {
    let graph = graph_of(alloc, r#"[["a","orset"],["m","map","a","abs"]]"#, lib)?;
    let (store, mut f) = opened(alloc, &graph, 0)?;
    update(rt, &store, &mut f, &graph, 0, Doing::Add, 5)?;
    let hand = split(&store, &mut f, &graph)?;
    Ok(settle_beside(rt, alloc, &store, f, hand, &graph, lib, meeting))
}

/// Whether a hand was served while a variable was evaluated for `settle_all`, by a function that waits for the hand.
fn is_served<R: Threads + Wait + Sync>(rt: &R, alloc: Global) -> Result<bool, Wrong> {
    let meeting = Arc::new(alloc, Meeting::new())?;
    let place = Arc::try_clone(&meeting)?;
    let mut steps = MapOps::new(alloc);
    steps.push(MapOp::Abs)?;
    let mine = steps.try_clone()?;
    let f = move |v: &Value| -> Result<Value, AllocError>
        requires { IsSized (val_of v.now) }
        ensures { Answers mine (val_of v.entry.now) result }
    {
        place.stay();
        apply_map(alloc, &mine, v)
    };
    let mut lib = Library::new(alloc);
    lib.add_map("abs", StoredMap::new(steps, Box::new(alloc, f)?))?;
    let is_settled = is_settled_beside(rt, alloc, &lib, &meeting)?;
    Ok(is_settled && meeting.was_served.load(Ordering::SeqCst))
}

#[test]
fn the_core_is_free_while_a_variable_is_evaluated(rt: HostRuntime) -> Result<(), Fail> {
    let is = is_served(&rt, rt.alloc())?;
    assert!(rt; is);
    Ok(())
}
