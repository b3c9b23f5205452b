//! What a spy sees of a store's states, also while a hand has the core, which no public call of one thread brings about.

ghost use Rattle.std.specs.Prelude.{◌≡◌, false, IfOk, IfSome};
ghost use Rattle.lasp_snap.specs.Views.{ShelfView};
ghost use Rattle.lasp_store.specs.Shelves.{IsShelfOf};

use crate::laws::shelves_stay;
use crate::store::{Feed, Hand, Store};
use lasp_fns::Library;
use lasp_graph::{Graph, read_graph};
use lasp_snap::{Shelf, Spy, Told};
use lasp_state::{Op, print_state};
use lasp_value::Value;
use std::alloc::{AllocError, Global};
use std::sync::{Arc, Wait};
use std::test::Fail;

/// A graph of one set.
fn one_set(alloc: Global) -> Option<Arc<Graph>> {
    let lib = Library::new(alloc);
    let graph = read_graph(alloc, r#"[["a","orset"]]"#.as_bytes(), &lib).ok()?;
    Arc::new(alloc, graph).ok()
}

/// Writes what the spy sees of the set, and how many readings it has taken.
fn peek(alloc: Global, spy: &mut Spy, out: &mut String) -> Result<(), AllocError>
    ensures { spy.new.shelf ≡ spy.old.shelf }
{
    if spy.vars() == 0 || spy.looks() > 100 {
        return out.push_str("nothing; ");
    }
    let peeked = spy.peek(0);
    let text = print_state(alloc, &*peeked?)?;
    write!(out, "{} {}; ", text.as_str(), spy.looks())
}

/// Adds a number to the set.
fn add<R: Wait>(rt: &R, store: &Store, f: &mut Feed, n: i64) -> Result<(), AllocError>
    requires feed { (f.old.lock ≡ store.now) × (f.old.turn ≡ false) × (f.old.number ≡ 0) }
    ensures feed { (f.new.lock ≡ store.now) × (f.new.turn ≡ false) × (f.new.number ≡ 0) }
    ensures shelf { (s : ShelfView) → IsShelfOf f.old s → IsShelfOf f.new s }
{
    shelves_stay();
    match store.update(rt, f, 0, &Op::Add(Value::Int(n))) {
        Ok(_) => Ok(()),
        Err(_) => Err(AllocError),
    }
}

/// Publishes what the set holds.
fn publish<R: Wait>(
    rt: &R,
    alloc: Global,
    store: &Store,
    f: &mut Feed,
    shelf: &mut Shelf,
) -> Result<Told, AllocError>
    requires feed { (f.old.lock ≡ store.now) × (f.old.turn ≡ false) × (f.old.number ≡ 0) }
    requires shelf { IsShelfOf f.old shelf.old }
    ensures feed { (f.new.lock ≡ store.now) × (f.new.turn ≡ false) × (f.new.number ≡ 0) }
    ensures shelf { IsShelfOf f.new shelf.new }
    ensures same { shelf.new.shelf ≡ shelf.old.shelf }
    ensures told { IfOk result (λ t. t.shelf ≡ shelf.new.shelf) }
{
    if shelf.place() > 100 {
        return Err(AllocError);
    }
    store.publish(rt, alloc, f, shelf)
}

/// Adds a number and publishes, twice, and peeks before, behind each of them, and while the hand has the core. Of the first publication alone the spy is told.
fn play<R: Wait>(
    rt: &R,
    alloc: Global,
    store: &Store,
    f: &mut Feed,
    hand: &mut Hand,
    shelf: &mut Shelf,
    spy: &mut Spy,
    out: &mut String,
) -> Result<(), AllocError>
    requires feed { (f.old.lock ≡ store.now) × (f.old.turn ≡ false) × (f.old.number ≡ 0) }
    requires hand { (hand.old.lock ≡ store.now) × (hand.old.turn ≡ false) }
    requires shelf { IsShelfOf f.old shelf.old }
    requires spy { spy.old.shelf ≡ shelf.old.shelf }
{
    peek(alloc, spy, out)?;
    add(rt, store, f, 5)?;
    peek(alloc, spy, out)?;
    spy.learn(publish(rt, alloc, store, f, shelf)?);
    peek(alloc, spy, out)?;
    let core = store.begin(rt, hand);
    let beside = peek(alloc, spy, out);
    store.end(hand, core);
    beside?;
    add(rt, store, f, 6)?;
    peek(alloc, spy, out)?;
    drop(publish(rt, alloc, store, f, shelf)?);
    peek(alloc, spy, out)
}

/// What a spy of a new store saw, also after its shelf was closed.
fn seen<R: Wait>(rt: &R, alloc: Global) -> Result<String, AllocError> {
    let graph = one_set(alloc).ok_or(AllocError)?;
    let (store, mut f) = Store::new(alloc, graph, 0, 2)?;
    let mut hand = store.split_hand(&mut f)?;
    let (mut shelf, mut spies) = store.open_shelf(rt, alloc, &mut f, 1)?;
    let mut out = String::new(alloc);
    let mut played = Err(AllocError);
    if let Some(mut spy) = spies.take_spy() {
        played = play(
            rt, alloc, &store, &mut f, &mut hand, &mut shelf, &mut spy, &mut out,
        );
        shelf.close(rt);
        peek(alloc, &mut spy, &mut out)?;
    } else {
        shelf.close(rt);
    }
    played?;
    Ok(out)
}

#[test]
fn a_spy_sees_what_is_published_while_a_hand_has_the_core(rt: HostRuntime) -> Result<(), Fail> {
    let seen = seen(&rt, rt.alloc())?;
    assert_eq!(rt;
        seen.as_str(),
        "[] 1; [] 2; [5] 3; [5] 4; [5] 5; [5,6] 6; [5,6] 6; "
    );
    Ok(())
}
