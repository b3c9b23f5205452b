//! A feed beside two hands that work in threads of their own.

ghost use Rattle.std.specs.Prelude.{◌≡◌, IfOk, IfSome};
ghost use Rattle.std.specs.Arc.{arc_value};
ghost use Rattle.lasp_store.specs.Turn.{IsSeated};
ghost use Rattle.tests_store.specs.Kept.{IsFeed};

use crate::ended::{Fed, entries_of, is_evaluated};
use crate::feeding::{Doing, declare, deliver, graph_of, message, opened, settle, split, update};
use crate::lines::are_its_entries;
use crate::working::{Party, Worked, Worker};
use crate::wrong::Wrong;
use lasp_core::Core;
use lasp_fns::Library;
use lasp_graph::Graph;
use lasp_store::{Feed, Hand, Seated, Store};
use lasp_wire::Message;
use std::alloc::{AllocError, Global};
use std::sync::atomic::{AtomicU64, Ordering};
use std::sync::{Arc, Wait};
use std::test::Fail;
use std::thread::{Threads, join, yield_now};

/// Two sets, and what is made of them.
const OPENING: &str =
    r#"[["a","orset"],["b","orset"],["u","union","a","b"],["v","intersection","u","b"]]"#;

/// A variable that is declared meanwhile.
const MORE: &str = r#"["w","union","v","b"]"#;

/// How many jobs two hands do. The first may leave behind its jobs, with one more in hand; the other always comes back.
#[derive(Clone, Copy)]
struct Plan {
    one: u64,
    other: u64,
    is_left: bool,
}

/// How many numbers the feed adds at most.
const MOST: u32 = 20_000;

/// Waits for a job that is done, but not for long.
fn wait_for_more(done: &AtomicU64, seen: u64) {
    for _ in 0..100_000 {
        if done.load(Ordering::SeqCst) != seen {
            return;
        }
        yield_now();
    }
}

/// Adds numbers to two sets in turn, in ascending order, until so many jobs are done. It answers the next number.
fn feed<R: Wait>(
    rt: &R,
    store: &Store,
    f: &mut Feed,
    graph: &Arc<Graph>,
    from: u32,
    done: &AtomicU64,
    until: u64,
) -> Result<u32, Wrong>
    requires { IsFeed store.now (arc_value graph.now) f.old }
    ensures { IsFeed store.now (arc_value graph.now) f.new }
{
    for n in from..MOST {
        let seen = done.load(Ordering::SeqCst);
        if seen >= until {
            return Ok(n);
        }
        match update(rt, store, f, graph, (n % 2) as u8, Doing::Add, n) {
            Ok(_) => wait_for_more(done, seen),
            Err(why) => return Err(Wrong::from(why)),
        }
    }
    Ok(MOST)
}

/// Adds numbers until all jobs are done, and meanwhile joins a message in and declares a variable. It answers the feed, what it did, and its graph.
fn feed_all<R: Wait>(
    rt: &R,
    alloc: Global,
    store: &Store,
    mut f: Feed,
    graph: &Arc<Graph>,
    message: &Arc<Message>,
    lib: &Library,
    done: &AtomicU64,
    jobs: u64,
) -> Result<(Feed, Fed, Arc<Graph>), Wrong>
    requires { IsFeed store.now (arc_value graph.now) f }
    ensures { IfOk result (λ fed. IsFeed store.now (arc_value fed.2) fed.0) }
{
    let delivered = feed(rt, store, &mut f, graph, 0, done, jobs / 4)?;
    deliver(rt, store, &mut f, graph, 7, message)?;
    let declared = feed(rt, store, &mut f, graph, delivered, done, jobs / 2)?;
    let longer = declare(rt, alloc, store, &mut f, graph, MORE, lib)?;
    let added = feed(rt, store, &mut f, &longer, declared, done, jobs)?;
    let fed = Fed {
        added,
        delivered,
        declared,
    };
    Ok((f, fed, longer))
}

/// The message of another replica that has a number of its own.
fn message_of<R: Wait>(rt: &R, alloc: Global, graph: &Arc<Graph>) -> Result<Arc<Message>, Wrong> {
    let (store, mut f) = opened(alloc, graph, 1)?;
    update(rt, &store, &mut f, graph, 0, Doing::Add, 100_000)?;
    Ok(Arc::new(alloc, message(rt, alloc, &store, &mut f, graph)?)?)
}

/// What a party comes to in a thread of its own, and what a call comes to meanwhile.
fn beside<R: Threads, W: Party + Send, A, F: FnOnce() -> A>(
    rt: &R,
    party: W,
    done: &AtomicU64,
    call: F,
) -> (Worked, A)
    requires { F.pre call }
    ensures party { IfSome result.0.hand (λ h. h.lock ≡ W.lock party) }
    ensures call { F.post call result.1 }
{
    join(
        rt,
        move || -> Worked
            ensures { IfSome result.hand (λ h. h.lock ≡ W.lock party) }
        { party.act(done) },
        call,
    )
}

/// The same of two parties.
fn beside_both<R: Threads, W: Party + Send, A, F: FnOnce() -> A>(
    rt: &R,
    one: W,
    other: W,
    done: &AtomicU64,
    call: F,
) -> (Worked, (Worked, A))
    requires { F.pre call }
    ensures one { IfSome result.0.hand (λ h. h.lock ≡ W.lock one) }
    ensures other { IfSome result.1.0.hand (λ h. h.lock ≡ W.lock other) }
    ensures call { F.post call result.1.1 }
{
    beside(
        rt,
        one,
        done,
        move || -> (Worked, A)
            requires { F.pre call }
            ensures { IfSome result.0.hand (λ h. h.lock ≡ W.lock other) × F.post call result.1 }
        { beside(rt, other, done, call) },
    )
}

/// What the hands come to in threads of their own, and the feed beside them.
fn together<R: Threads + Wait + Sync>(
    rt: &R,
    alloc: Global,
    store: &Store,
    f: Feed,
    hands: (Hand, Hand),
    graph: &Arc<Graph>,
    message: &Arc<Message>,
    lib: &Library,
    done: &AtomicU64,
    plan: Plan,
) -> (Worked, (Worked, Result<(Feed, Fed, Arc<Graph>), Wrong>))
    requires feed { IsFeed store.now (arc_value graph.now) f }
    requires one { IsSeated store.now hands.0 }
    requires other { IsSeated store.now hands.1 }
    ensures one { IfSome result.0.hand (λ h. h.lock ≡ store.now) }
    ensures other { IfSome result.1.0.hand (λ h. h.lock ≡ store.now) }
    ensures feed { IfOk result.1.1 (λ fed. IsFeed store.now (arc_value fed.2) fed.0) }
{
    let jobs = plan.one.saturating_add(plan.other);
    let one = Worker {
        seated: Seated::new(store, hands.0, rt),
        alloc,
        goal: plan.one,
        stays: !plan.is_left,
    };
    let other = Worker {
        seated: Seated::new(store, hands.1, rt),
        alloc,
        goal: plan.other,
        stays: true,
    };
    beside_both(
        rt,
        one,
        other,
        done,
        move || -> Result<(Feed, Fed, Arc<Graph>), Wrong>
            requires { IsFeed store.now (arc_value graph.now) f }
            ensures { IfOk result (λ fed. IsFeed store.entry.now (arc_value fed.2) fed.0) }
        { feed_all(rt, alloc, store, f, graph, message, lib, done, jobs) },
    )
}

/// Takes a hand back into a feed, where there is one.
fn rejoin(store: &Store, f: &mut Feed, hand: Option<Hand>)
    requires feed { (f.old.lock ≡ store.now) × (f.old.number ≡ 0) }
    requires hand { IfSome hand (λ h. h.lock ≡ store.now) }
    ensures { (f.new.lock ≡ store.now) × (f.new.number ≡ 0) }
{
    if let Some(hand) = hand {
        store.rejoin(f, hand);
    }
}

/// The core of a store that was settled, to which the hands came back that are left.
fn closed<R: Wait>(
    rt: &R,
    alloc: Global,
    store: Store,
    mut f: Feed,
    graph: &Arc<Graph>,
    one: Option<Hand>,
    other: Option<Hand>,
    lib: &Library,
) -> Result<Core, Wrong>
    requires feed { IsFeed store (arc_value graph.now) f }
    requires one { IfSome one (λ h. h.lock ≡ store) }
    requires other { IfSome other (λ h. h.lock ≡ store) }
{
    settle(rt, alloc, &store, &mut f, graph, lib)?;
    rejoin(&store, &mut f, one);
    rejoin(&store, &mut f, other);
    match store.close(f) {
        Some(core) => Ok(core),
        None => Err(Wrong),
    }
}

/// A store, its feed, and two hands.
fn crew(alloc: Global, graph: &Arc<Graph>) -> Result<(Store, Feed, (Hand, Hand)), AllocError>
    ensures feed { IfOk result (λ made. IsFeed made.0 (arc_value graph.now) made.1) }
    ensures hands { IfOk result (λ made. IsSeated made.0 made.2.0 × IsSeated made.0 made.2.1) }
{
    let (store, mut f) = opened(alloc, graph, 0)?;
    let one = split(&store, &mut f, graph)?;
    let other = split(&store, &mut f, graph)?;
    Ok((store, f, (one, other)))
}

/// The core of a store on which two hands did their jobs while its feed went on, what the feed did, and how many jobs the hands did.
fn played<R: Threads + Wait + Sync>(
    rt: &R,
    alloc: Global,
    graph: &Arc<Graph>,
    lib: &Library,
    plan: Plan,
) -> Result<(Core, Fed, (u64, u64)), Wrong> {
    let message = message_of(rt, alloc, graph)?;
    let (store, f, hands) = crew(alloc, graph)?;
    let done = AtomicU64::new(0);
    let (one, (other, fed)) = together(
        rt, alloc, &store, f, hands, graph, &message, lib, &done, plan,
    );
    let (f, fed, longer) = fed?;
    let each = (one.jobs, other.jobs);
    let core = closed(rt, alloc, store, f, &longer, one.hand, other.hand, lib)?;
    Ok((core, fed, each))
}

/// Whether a store on which two hands did their jobs while its feed went on is as plain evaluation has it, its entries are lawful, and the lines of its journal are these entries.
fn is_as_evaluated<R: Threads + Wait + Sync>(
    rt: &R,
    alloc: Global,
    plan: Plan,
) -> Result<bool, Wrong> {
    let lib = Library::new(alloc);
    let graph = graph_of(alloc, OPENING, &lib)?;
    let (core, fed, each) = played(rt, alloc, &graph, &lib, plan)?;
    let is_lawful = each == (plan.one, plan.other) && entries_of(&core, fed) == Some(each);
    Ok(is_lawful && is_evaluated(alloc, &core, &lib)? && are_its_entries(alloc, &core)?)
}

#[test]
fn two_hands_do_a_thousand_jobs_each_while_the_feed_goes_on(rt: HostRuntime) -> Result<(), Fail> {
    let plan = Plan {
        one: 1000,
        other: 1000,
        is_left: false,
    };
    let is = is_as_evaluated(&rt, rt.alloc(), plan)?;
    assert!(rt; is);
    Ok(())
}

#[test]
fn a_hand_that_is_dropped_with_its_job_hinders_nobody(rt: HostRuntime) -> Result<(), Fail> {
    let plan = Plan {
        one: 50,
        other: 150,
        is_left: true,
    };
    let is = is_as_evaluated(&rt, rt.alloc(), plan)?;
    assert!(rt; is);
    Ok(())
}
