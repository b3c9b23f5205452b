//! A core and a hand of a store, each in a thread of its own.

ghost use Rattle.std.specs.Prelude.{◌≡◌, false};

use lasp_core::Core;
use lasp_fns::Library;
use lasp_graph::{Graph, read_graph};
use lasp_store::{Hand, Store};
use std::alloc::Global;
use std::sync::{Arc, Wait};
use std::test::Fail;
use std::thread::{Threads, join};

/// A graph of one set.
fn one_set(alloc: Global) -> Option<Arc<Graph>> {
    let lib = Library::new(alloc);
    let graph = read_graph(alloc, r#"[["a","orset"]]"#.as_bytes(), &lib).ok()?;
    Arc::new(alloc, graph).ok()
}

/// A hand after it looked how many entries its store has, and this number.
fn looked(store: &Store, mut hand: Hand) -> (Hand, u64)
    requires { (hand.lock ≡ store.now) × (hand.turn ≡ false) }
{
    let length = store.length(&mut hand);
    (hand, length)
}

/// A core in another thread, and meanwhile a hand here: each, and how many entries it finds.
fn core_away<R: Threads>(
    rt: &R,
    core: Core,
    store: &Store,
    hand: Hand,
) -> ((Core, u64), (Hand, u64))
    requires { (hand.lock ≡ store.now) × (hand.turn ≡ false) }
{
    join(
        rt,
        move || {
            let length = core.journal_len();
            (core, length)
        },
        move || -> (Hand, u64)
            requires { (hand.lock ≡ store.now) × (hand.turn ≡ false) }
        { looked(store, hand) },
    )
}

/// A hand in another thread, and meanwhile a core here.
fn hand_away<R: Threads>(
    rt: &R,
    core: Core,
    store: &Store,
    hand: Hand,
) -> ((Hand, u64), (Core, u64))
    requires { (hand.lock ≡ store.now) × (hand.turn ≡ false) }
{
    join(
        rt,
        move || -> (Hand, u64)
            requires { (hand.lock ≡ store.now) × (hand.turn ≡ false) }
        { looked(store, hand) },
        move || {
            let length = core.journal_len();
            (core, length)
        },
    )
}

#[test]
fn a_core_and_a_hand_go_to_another_thread_and_come_back(rt: HostRuntime) -> Result<(), Fail> {
    let alloc = rt.alloc();
    let graph = one_set(alloc).ok_or("the graph was refused")?;
    let core = Core::new(alloc, Arc::try_clone(&graph)?, 0, 1)?;
    let (store, mut f) = Store::new(alloc, graph, 0, 1)?;
    let one = store.split_hand(&mut f)?;
    let other = store.split_hand(&mut f)?;
    let ((core, first), (_, second)) = core_away(&rt, core, &store, one);
    let ((_, third), (_, fourth)) = hand_away(&rt, core, &store, other);
    assert!(rt; (first, second, third, fourth) == (0, 0, 0, 0));
    Ok(())
}
