//! A store some of whose calls are refused for want of memory, and made once more. It ends as one of which none was refused: here, where memory is ample, and
//! wherever each request for memory is refused in turn (`tools/check_memory`).

ghost use Rattle.std.specs.Prelude.{◌≡◌, ◌≤◌, IfOk, length};
ghost use Rattle.std.specs.Arc.{arc_value};
ghost use Rattle.tests_store.specs.Kept.{IsFeed, IsHand};

use crate::asking::open;
use crate::feeding::{
    Doing, declare, deliver_again, graph_of, message, opened, settle, split, update_again,
};
use crate::told::Told;
use crate::working::work_once;
use crate::wrong::Wrong;
use lasp_core::Core;
use lasp_fns::Library;
use lasp_graph::Graph;
use lasp_state::Threshold;
use lasp_store::{Feed, Hand, Store};
use lasp_wire::Message;
use std::alloc::Global;
use std::sync::{Arc, Wait};
use std::test::Fail;

/// A set, a counter, and what is made of the set.
const OPENING: &str = r#"[["a","orset"],["c","counter"],["u","union","a","a"]]"#;

/// A variable that is declared behind these.
const MORE: &str = r#"["b","orset"]"#;

/// Opens a read of the counter, once more where that was refused.
fn open_again<R: Wait>(
    rt: &R,
    store: &Store,
    hand: &mut Hand,
    many: u64,
    total: u64,
) -> Result<(), Wrong>
    requires hand { IsHand store.now many hand.old }
    requires many { 3 ≤ many }
    ensures { IsHand store.now many hand.new }
{
    let read = open(rt, store, hand, 1, many, Threshold::Count(total));
    if read.is_some() {
        return Ok(());
    }
    match open(rt, store, hand, 1, many, Threshold::Count(total)) {
        Some(_) => Ok(()),
        None => Err(Wrong),
    }
}

/// A hand does a job and comes back, or another one does where memory was wanting.
fn work_again<R: Wait>(
    rt: &R,
    alloc: Global,
    store: &Store,
    f: &mut Feed,
    graph: &Arc<Graph>,
    lib: &Library,
    told: &mut Told,
)
    requires { IsFeed store.now (arc_value graph.now) f.old }
    ensures { IsFeed store.now (arc_value graph.now) f.new }
{
    let (mut done, _) = work_once(rt, alloc, store, f, graph, lib);
    if done.is_err() {
        (done, _) = work_once(rt, alloc, store, f, graph, lib);
    }
    told.done(done);
}

/// Updates of the first variables and a message, before and behind which reads wait.
fn begin<R: Wait>(
    rt: &R,
    store: &Store,
    f: &mut Feed,
    hand: &mut Hand,
    graph: &Arc<Graph>,
    message: &Arc<Message>,
    told: &mut Told,
) -> Result<(), Wrong>
    requires feed { IsFeed store.now (arc_value graph.now) f.old }
    requires hand { IsHand store.now (length (arc_value graph.now)) hand.old }
    requires many { 3 ≤ length (arc_value graph.now) }
    ensures feed { IsFeed store.now (arc_value graph.now) f.new }
    ensures hand { IsHand store.now (length (arc_value graph.now)) hand.new }
{
    open_again(rt, store, hand, graph.len(), 5)?;
    told.done(update_again(rt, store, f, graph, 0, Doing::Add, 1));
    told.done(update_again(rt, store, f, graph, 1, Doing::Inc, 2));
    told.done(deliver_again(rt, store, f, graph, 7, message));
    open_again(rt, store, hand, graph.len(), 9)?;
    open_again(rt, store, hand, graph.len(), 100)
}

/// A declaration, an update of what it declares, a job, and an update that meets a read. It answers the graph.
fn go_on<R: Wait>(
    rt: &R,
    alloc: Global,
    store: &Store,
    f: &mut Feed,
    graph: &Arc<Graph>,
    told: &mut Told,
) -> Result<Arc<Graph>, Wrong>
    requires { IsFeed store.now (arc_value graph.now) f.old }
    ensures { IfOk result (λ g. IsFeed store.now (arc_value g) f.new) }
{
    let lib = Library::new(alloc);
    let longer = declare(rt, alloc, store, f, graph, MORE, &lib)?;
    told.done(update_again(rt, store, f, &longer, 3, Doing::Add, 5));
    work_again(rt, alloc, store, f, &longer, &lib, told);
    settle(rt, alloc, store, f, &longer, &lib)?;
    told.done(update_again(rt, store, f, &longer, 1, Doing::Inc, 3));
    Ok(longer)
}

/// The message of another replica.
fn message_of<R: Wait>(rt: &R, alloc: Global, graph: &Arc<Graph>) -> Result<Arc<Message>, Wrong> {
    let (store, mut f) = opened(alloc, graph, 1)?;
    update_again(rt, &store, &mut f, graph, 1, Doing::Inc, 4)?;
    Ok(Arc::new(alloc, message(rt, alloc, &store, &mut f, graph)?)?)
}

/// The store's calls, and the core that it leaves.
fn played<R: Wait>(rt: &R, alloc: Global, told: &mut Told) -> Result<Option<Core>, Wrong> {
    let graph = graph_of(alloc, OPENING, &Library::new(alloc))?;
    if graph.len() < 3 {
        return Err(Wrong);
    }
    let message = message_of(rt, alloc, &graph)?;
    let (store, mut f) = opened(alloc, &graph, 0)?;
    let mut hand = split(&store, &mut f, &graph)?;
    begin(rt, &store, &mut f, &mut hand, &graph, &message, told)?;
    go_on(rt, alloc, &store, &mut f, &graph, told)?;
    store.rejoin(&mut f, hand);
    Ok(store.close(f))
}

/// What the calls came to, and what the core is in the end.
fn told<R: Wait>(rt: &R, alloc: Global) -> Result<String, Wrong> {
    let mut told = Told::new(alloc);
    match played(rt, alloc, &mut told)? {
        Some(core) => told.core(&core),
        None => told.say("a pass is out"),
    }
    told.into_text()
}

#[test]
fn a_call_that_memory_was_wanting_for_leaves_no_trace(rt: HostRuntime) -> Result<(), Fail> {
    let told = told(&rt, rt.alloc())?;
    assert_eq!(rt;
        told.as_str(),
        "ok; ok; ok 0; ok; ok; ok 1; add 0; inc 1; message 7; declares b; add 3; binds 2; inc 1; [1]; 9; [1]; [5]; counts 4 1; read 2 of 1; "
    );
    Ok(())
}
