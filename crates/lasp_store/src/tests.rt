//! What a store answers while its core is out of it, which no public call of one thread brings about.

ghost use Rattle.std.specs.Prelude.{◌≡◌, false};

use crate::store::{Feed, Store};
use lasp_core::Try;
use lasp_fns::Library;
use lasp_graph::{Graph, read_graph};
use lasp_state::Op;
use lasp_value::Value;
use std::alloc::Global;
use std::sync::Arc;
use std::test::Fail;

/// A graph of one set.
fn one_set(alloc: Global) -> Option<Arc<Graph>> {
    let lib = Library::new(alloc);
    let graph = read_graph(alloc, r#"[["a","orset"]]"#.as_bytes(), &lib).ok()?;
    Arc::new(alloc, graph).ok()
}

/// Tries to add a number to the set: whether the store was busy, and how many entries there are then.
fn tried(store: &Store, f: &mut Feed, n: i64) -> (bool, u64)
    requires { (f.old.lock ≡ store.now) × (f.old.turn ≡ false) × (f.old.number ≡ 0) }
    ensures { (f.new.lock ≡ store.now) × (f.new.turn ≡ false) × (f.new.number ≡ 0) }
{
    let added = store.try_update(f, 0, &Op::Add(Value::Int(n)));
    (matches!(added, Err(Try::Busy)), store.length(f))
}

#[test]
fn a_store_whose_core_is_out_is_busy_and_tells_its_length(rt: HostRuntime) -> Result<(), Fail> {
    let told = {
        let graph = one_set(rt.alloc()).ok_or("the graph was refused")?;
        let (store, mut f) = Store::new(rt.alloc(), graph, 1, 2)?;
        let mut hand = store.split_hand(&mut f)?;
        let first = tried(&store, &mut f, 5);
        let core = store.begin(&rt, &mut hand);
        let beside = tried(&store, &mut f, 6);
        store.end(&mut hand, core);
        let after = tried(&store, &mut f, 6);
        drop(store.begin(&rt, &mut hand));
        drop(hand);
        let lost = tried(&store, &mut f, 7);
        (first, beside, after, lost, store.close(f).is_none())
    };
    assert!(rt; told == ((false, 1), (true, 1), (false, 2), (true, 2), true));
    Ok(())
}
