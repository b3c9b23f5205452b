//! Spies beside a feed that publishes: one in a thread of its own, one that is dropped, and one whose shelf was closed. A count and a publication that memory was
//! wanting for are made once more, and come to the same then: here, where memory is ample, and wherever each request for memory is refused in turn (`tools/check_memory`).

ghost use Rattle.std.specs.Prelude.{◌≤◌, IfOk};
ghost use Rattle.tests_spies.specs.Kept.{MayPublish};

use lasp_fns::Library;
use lasp_graph::read_graph;
use lasp_snap::{Shelf, Spies, Spy};
use lasp_state::{Op, print_state};
use lasp_store::{Feed, Store, shelves_stay};
use std::alloc::{AllocError, Global};
use std::sync::atomic::{AtomicU64, Ordering};
use std::sync::{Arc, Wait};
use std::test::Fail;
use std::thread::{Threads, join, yield_now};

/// A counter.
const OPENING: &str = r#"[["c","counter"]]"#;

/// How often a spy looks at most.
const MOST: u64 = 1_000_000_000;

/// A store of one counter with its feed, and a shelf of so many spies.
fn made<R: Wait>(
    rt: &R,
    alloc: Global,
    spies: u32,
) -> Result<(Store, Feed, Shelf, Spies), AllocError>
    requires { (1 ≤ spies) × (spies ≤ 16) }
    ensures { IfOk result (λ made. MayPublish made.0 made.1 made.2) }
{
    let graph = read_graph(alloc, OPENING.as_bytes(), &Library::new(alloc)).map_err(
        |_| AllocError,
    )?;
    let (store, mut f) = Store::new(alloc, Arc::new(alloc, graph)?, 0, 2)?;
    let (shelf, spies) = store.open_shelf(rt, alloc, &mut f, spies)?;
    Ok((store, f, shelf, spies))
}

/// Counts one more.
fn count<R: Wait>(rt: &R, store: &Store, f: &mut Feed, shelf: &Shelf) -> Result<(), AllocError>
    requires { MayPublish store.now f.old shelf.now }
    ensures { MayPublish store.now f.new shelf.now }
{
    shelves_stay();
    match store.update(rt, f, 0, &Op::Inc(1)) {
        Ok(_) => Ok(()),
        Err(_) => Err(AllocError),
    }
}

/// Publishes what the counter has.
fn publish<R: Wait>(
    rt: &R,
    alloc: Global,
    store: &Store,
    f: &mut Feed,
    shelf: &mut Shelf,
) -> Result<(), AllocError>
    requires { MayPublish store.now f.old shelf.old }
    ensures { MayPublish store.now f.new shelf.new }
{
    if shelf.place() > MOST {
        return Err(AllocError);
    }
    match store.publish(rt, alloc, f, shelf) {
        Ok(_) => Ok(()),
        Err(_) => Err(AllocError),
    }
}

/// Counts one more and publishes that, each once more where memory was wanting.
fn go_on<R: Wait>(
    rt: &R,
    alloc: Global,
    store: &Store,
    f: &mut Feed,
    shelf: &mut Shelf,
) -> Result<(), AllocError>
    requires { MayPublish store.now f.old shelf.old }
    ensures { MayPublish store.now f.new shelf.new }
{
    if count(rt, store, f, shelf).is_err() {
        count(rt, store, f, shelf)?;
    }
    if publish(rt, alloc, store, f, shelf).is_ok() {
        return Ok(());
    }
    publish(rt, alloc, store, f, shelf)
}

/// Counts to so many, and publishes each number.
fn publish_all<R: Wait>(
    rt: &R,
    alloc: Global,
    store: &Store,
    f: &mut Feed,
    shelf: &mut Shelf,
    many: u32,
) -> bool
    requires { MayPublish store.now f.old shelf.old }
    ensures { MayPublish store.now f.new shelf.new }
{
    let mut is_whole = true;
    for _ in 0..many {
        is_whole &= go_on(rt, alloc, store, f, shelf).is_ok();
    }
    is_whole
}

/// What a spy sees of the counter.
fn total(alloc: Global, spy: &mut Spy) -> Option<u64> {
    if spy.vars() == 0 || spy.looks() > MOST {
        return None;
    }
    let state = spy.peek(0).ok()?;
    print_state(alloc, &state)
        .ok()?
        .as_str()
        .parse::<u64>()
        .ok()
}

/// A spy, if there is one, and what it sees of the counter.
fn peeked(alloc: Global, spy: Option<Spy>) -> Option<(Spy, Option<u64>)> {
    let mut spy = spy?;
    let total = total(alloc, &mut spy);
    Some((spy, total))
}

/// What a spy sees of the counter behind a count that isn't published, and once it is.
fn seen_around<R: Wait>(
    rt: &R,
    alloc: Global,
    store: &Store,
    f: &mut Feed,
    shelf: &mut Shelf,
    spy: &mut Spy,
) -> Result<(Option<u64>, Option<u64>), AllocError>
    requires { MayPublish store.now f.old shelf.old }
{
    count(rt, store, f, shelf)?;
    let before = total(alloc, spy);
    publish(rt, alloc, store, f, shelf)?;
    Ok((before, total(alloc, spy)))
}

/// A spy, and whether it ever saw less than before, or a version after fewer entries, or nothing.
#[derive(Drop)]
struct Watched {
    spy: Spy,
    has_fallen: bool,
}

/// Looks at the counter until all is published.
fn watch(alloc: Global, mut spy: Spy, is_over: &AtomicU64) -> Watched {
    let mut last = (0, 0);
    let mut has_fallen = false;
    for _ in 0..MOST {
        let is_last = is_over.load(Ordering::SeqCst) == 1;
        match total(alloc, &mut spy) {
            Some(total) if total >= last.0 && spy.entries() >= last.1 => {
                last = (total, spy.entries());
            }
            _ => has_fallen = true,
        }
        if is_last {
            break;
        }
        yield_now();
    }
    Watched { spy, has_fallen }
}

/// A spy in a thread of its own, and beside it the feed, which counts to so many.
fn beside<R: Threads + Wait + Sync>(
    rt: &R,
    alloc: Global,
    store: &Store,
    f: &mut Feed,
    shelf: &mut Shelf,
    spy: Spy,
    is_over: &AtomicU64,
    many: u32,
) -> (Watched, bool)
    requires { MayPublish store.now f.old shelf.old }
{
    join(
        rt,
        move || watch(alloc, spy, is_over),
        move || -> bool
            requires { MayPublish store.now f.now shelf.now }
        {
            let is_whole = publish_all(rt, alloc, store, f, shelf, many);
            is_over.store(1, Ordering::SeqCst);
            is_whole
        },
    )
}

#[test]
fn an_update_is_seen_once_it_is_published(rt: HostRuntime) -> Result<(), Fail> {
    let alloc = rt.alloc();
    let (store, mut f, mut shelf, mut spies) = made(&rt, alloc, 1)?;
    let Some(mut spy) = spies.take_spy() else {
        shelf.close(&rt);
        return Err(Fail::from("there is no spy"));
    };
    let seen = seen_around(&rt, alloc, &store, &mut f, &mut shelf, &mut spy);
    shelf.close(&rt);
    assert_eq!(rt; seen?, (Some(0), Some(1)));
    Ok(())
}

#[test]
fn what_a_spy_sees_in_a_thread_of_its_own_never_falls(rt: HostRuntime) -> Result<(), Fail> {
    let alloc = rt.alloc();
    let (store, mut f, mut shelf, mut spies) = made(&rt, alloc, 1)?;
    let Some(spy) = spies.take_spy() else {
        shelf.close(&rt);
        return Err(Fail::from("there is no spy"));
    };
    let is_over = AtomicU64::new(0);
    let (mut watched, is_whole) = beside(
        &rt, alloc, &store, &mut f, &mut shelf, spy, &is_over, 1000,
    );
    let published = shelf.place();
    shelf.close(&rt);
    assert!(rt; is_whole && !watched.has_fallen);
    assert_eq!(rt;
        (published, watched.spy.place(), watched.spy.entries()),
        (1001, 1001, 1000)
    );
    assert_eq!(rt; total(alloc, &mut watched.spy), Some(1000));
    Ok(())
}

#[test]
fn a_spy_goes_on_where_another_is_dropped_and_keeps_what_it_saw_behind_the_end(
    rt: HostRuntime,
) -> Result<(), Fail> {
    let alloc = rt.alloc();
    let (store, mut f, mut shelf, mut spies) = made(&rt, alloc, 2)?;
    let (one, other) = (spies.take_spy(), spies.take_spy());
    let first = publish_all(&rt, alloc, &store, &mut f, &mut shelf, 3);
    let seen = one.and_then(|mut spy| total(alloc, &mut spy));
    let second = publish_all(&rt, alloc, &store, &mut f, &mut shelf, 4);
    let before = peeked(alloc, other);
    shelf.close(&rt);
    assert!(rt; first && second && spies.take_spy().is_none());
    let Some((spy, total)) = before else {
        return Err(Fail::from("there is no spy"));
    };
    let behind = peeked(alloc, Some(spy)).map(|(spy, total)| (total, spy.looks()));
    assert_eq!(rt;
        (seen, total, behind),
        (Some(3), Some(7), Some((Some(7), 1)))
    );
    Ok(())
}

/// Counts one more and publishes that. It answers how many versions there are, and what the spy sees then; a look that memory was wanting for is taken once more.
fn seen_next<R: Wait>(
    rt: &R,
    alloc: Global,
    store: &Store,
    f: &mut Feed,
    shelf: &mut Shelf,
    spy: &mut Spy,
) -> Result<(u64, u64), AllocError>
    requires { MayPublish store.now f.old shelf.old }
    ensures { MayPublish store.now f.new shelf.new }
{
    go_on(rt, alloc, store, f, shelf)?;
    let seen = match total(alloc, spy) {
        Some(seen) => Some(seen),
        None => total(alloc, spy),
    };
    match seen {
        Some(seen) => Ok((shelf.place(), seen)),
        None => Err(AllocError),
    }
}

/// The same twice.
fn seen_twice<R: Wait>(
    rt: &R,
    alloc: Global,
    store: &Store,
    f: &mut Feed,
    shelf: &mut Shelf,
    mut spy: Spy,
) -> Result<((u64, u64), (u64, u64)), AllocError>
    requires { MayPublish store.now f.old shelf.old }
{
    let first = seen_next(rt, alloc, store, f, shelf, &mut spy)?;
    Ok((first, seen_next(rt, alloc, store, f, shelf, &mut spy)?))
}

#[test]
fn a_publication_that_memory_was_wanting_for_leaves_no_version(
    rt: HostRuntime,
) -> Result<(), Fail> {
    let alloc = rt.alloc();
    let (store, mut f, mut shelf, mut spies) = made(&rt, alloc, 1)?;
    let seen = match spies.take_spy() {
        Some(spy) => seen_twice(&rt, alloc, &store, &mut f, &mut shelf, spy),
        None => Err(AllocError),
    };
    shelf.close(&rt);
    assert_eq!(rt; seen?, ((2, 1), (3, 2)));
    Ok(())
}
