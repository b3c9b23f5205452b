//! Calls of a feed, each with what it asks for. Whatever they come to, the feed may make the next one.

ghost use Rattle.std.specs.Prelude.{◌≡◌, ◌<◌, ◌++◌, ◌∷◌, [], ℕ, length, IfOk, OnOk, OnErr, IsTrue};
ghost use Rattle.std.specs.Arc.{arc_value};
ghost use Rattle.model_graph.specs.Graph.{is_source, kind_at};
ghost use Rattle.model_graph.specs.Lawful.{variable_limit};
ghost use Rattle.model_readings.specs.Lawful.{FitsAll, IsNext};
ghost use Rattle.lasp_graph.specs.Decl.{decl_of};
ghost use Rattle.lasp_graph.specs.Library.{library_of};
ghost use Rattle.lasp_replica.specs.Replica.{IsSmall};
ghost use Rattle.tests_store.specs.Kept.{IsFeed, IsHand};

use crate::wrong::Wrong;
use lasp_core::{DeliverRefused, Released, Settle, Try, UpdateRefused};
use lasp_fns::Library;
use lasp_graph::{Decl, DeclRefused, Graph, read_decl, read_graph};
use lasp_state::{Op, State};
use lasp_store::{Feed, Hand, Store};
use lasp_value::Value;
use lasp_wire::Message;
use model_readings::read_declarations_are_lawful;
use serde_json::Value as Json;
use std::alloc::{AllocError, Global};
use std::sync::{Arc, Wait};

/// What an update by a number does.
#[derive(Clone, Copy)]
pub enum Doing {
    Add,
    Inc,
}

impl Doing {
    fn op(self, n: u32) -> Op
        ensures { (nodes : ℕ) → IsSmall nodes result }
    {
        match self {
            Doing::Add => Op::Add(Value::Int(i64::from(n))),
            Doing::Inc => Op::Inc(n),
        }
    }
}

/// A graph over a library.
pub fn graph_of(alloc: Global, text: &str, lib: &Library) -> Result<Arc<Graph>, Wrong>
    ensures { IfOk result (λ g. FitsAll (library_of lib.now) (arc_value g)) }
{
    let graph = read_graph(alloc, text.as_bytes(), lib)?;
    if !graph.fits(lib) {
        return Err(Wrong);
    }
    Ok(Arc::new(alloc, graph)?)
}

/// The store of replica `me` of two, and its feed.
pub fn opened(alloc: Global, graph: &Arc<Graph>, me: u8) -> Result<(Store, Feed), AllocError>
    requires { me < 2 }
    ensures { IfOk result (λ made. IsFeed made.0 (arc_value graph.now) made.1) }
{
    let share = Arc::try_clone(graph)?;
    Store::new(alloc, share, me, 2)
}

/// A hand that has seen the graph that the feed has.
pub fn split(store: &Store, f: &mut Feed, graph: &Arc<Graph>) -> Result<Hand, AllocError>
    requires feed { IsFeed store.now (arc_value graph.now) f.old }
    ensures feed { IsFeed store.now (arc_value graph.now) f.new }
    ensures hand { IfOk result (IsHand store.now (length (arc_value graph.now))) }
{
    if f.made() >= 1000 {
        return Err(AllocError);
    }
    store.split_hand(f)
}

/// An update.
pub fn update<R: Wait>(
    rt: &R,
    store: &Store,
    f: &mut Feed,
    graph: &Arc<Graph>,
    var: u8,
    doing: Doing,
    n: u32,
) -> Result<Released, UpdateRefused>
    requires { IsFeed store.now (arc_value graph.now) f.old }
    ensures { IsFeed store.now (arc_value graph.now) f.new }
{
    let act = doing.op(n);
    f.known();
    let updated = store.update(rt, f, var, &act);
    f.known();
    updated
}

/// An update, once more where memory was wanting.
pub fn update_again<R: Wait>(
    rt: &R,
    store: &Store,
    f: &mut Feed,
    graph: &Arc<Graph>,
    var: u8,
    doing: Doing,
    n: u32,
) -> Result<Released, UpdateRefused>
    requires { IsFeed store.now (arc_value graph.now) f.old }
    ensures { IsFeed store.now (arc_value graph.now) f.new }
{
    match update(rt, store, f, graph, var, doing, n) {
        Err(UpdateRefused::Memory) => update(rt, store, f, graph, var, doing, n),
        done => done,
    }
}

/// Adds the numbers below a bound to a set.
pub fn add_below<R: Wait>(
    rt: &R,
    store: &Store,
    f: &mut Feed,
    graph: &Arc<Graph>,
    var: u8,
    bound: u32,
) -> Result<(), UpdateRefused>
    requires { IsFeed store.now (arc_value graph.now) f.old }
    ensures { IsFeed store.now (arc_value graph.now) f.new }
{
    for n in 0..bound {
        match update(rt, store, f, graph, var, Doing::Add, n) {
            Ok(_) => {}
            Err(why) => return Err(why),
        }
    }
    Ok(())
}

/// An update that is tried once.
pub fn try_update(
    store: &Store,
    f: &mut Feed,
    graph: &Arc<Graph>,
    var: u8,
    doing: Doing,
    n: u32,
) -> Result<Released, Try<UpdateRefused>>
    requires { IsFeed store.now (arc_value graph.now) f.old }
    ensures { IsFeed store.now (arc_value graph.now) f.new }
{
    let act = doing.op(n);
    f.known();
    let updated = store.try_update(f, var, &act);
    f.known();
    updated
}

/// A message is joined in.
pub fn deliver<R: Wait>(
    rt: &R,
    store: &Store,
    f: &mut Feed,
    graph: &Arc<Graph>,
    number: u32,
    message: &Arc<Message>,
) -> Result<Released, DeliverRefused>
    requires { IsFeed store.now (arc_value graph.now) f.old }
    ensures { IsFeed store.now (arc_value graph.now) f.new }
{
    f.known();
    let delivered = store.deliver(rt, f, number, message);
    f.known();
    delivered
}

/// The same, once more where memory was wanting.
pub fn deliver_again<R: Wait>(
    rt: &R,
    store: &Store,
    f: &mut Feed,
    graph: &Arc<Graph>,
    number: u32,
    message: &Arc<Message>,
) -> Result<Released, DeliverRefused>
    requires { IsFeed store.now (arc_value graph.now) f.old }
    ensures { IsFeed store.now (arc_value graph.now) f.new }
{
    match deliver(rt, store, f, graph, number, message) {
        Err(DeliverRefused::Memory) => deliver(rt, store, f, graph, number, message),
        done => done,
    }
}

/// A message is joined in, which is tried once.
pub fn try_deliver(
    store: &Store,
    f: &mut Feed,
    graph: &Arc<Graph>,
    number: u32,
    message: &Arc<Message>,
) -> Result<Released, Try<DeliverRefused>>
    requires { IsFeed store.now (arc_value graph.now) f.old }
    ensures { IsFeed store.now (arc_value graph.now) f.new }
{
    f.known();
    let delivered = store.try_deliver(f, number, message);
    f.known();
    delivered
}

/// Whether a variable of a graph is a source.
pub fn is_source(graph: &Graph, var: u8) -> bool
    ensures var { IsTrue result → var < length graph.now }
    ensures source { IsTrue result → IsTrue (is_source (kind_at graph.now var)) }
{
    let place = u64::from(var);
    if place >= graph.len() {
        return false;
    }
    graph.at(place).kind.is_source()
}

/// The state of a source.
pub fn mark<R: Wait>(
    rt: &R,
    store: &Store,
    f: &mut Feed,
    graph: &Arc<Graph>,
    var: u8,
) -> Result<Arc<State>, AllocError>
    requires feed { IsFeed store.now (arc_value graph.now) f.old }
    requires var { var < length (arc_value graph.now) }
    requires source { IsTrue (is_source (kind_at (arc_value graph.now) var)) }
    ensures { IsFeed store.now (arc_value graph.now) f.new }
{
    f.known();
    let marked = store.mark(rt, f, var);
    f.known();
    marked
}

/// The state of a source, by a call that tries once.
pub fn try_mark(
    store: &Store,
    f: &mut Feed,
    graph: &Arc<Graph>,
    var: u8,
) -> Result<Arc<State>, Try<AllocError>>
    requires feed { IsFeed store.now (arc_value graph.now) f.old }
    requires var { var < length (arc_value graph.now) }
    requires source { IsTrue (is_source (kind_at (arc_value graph.now) var)) }
    ensures { IsFeed store.now (arc_value graph.now) f.new }
{
    f.known();
    let marked = store.try_mark(f, var);
    f.known();
    marked
}

/// The message of the replica.
pub fn message<R: Wait>(
    rt: &R,
    alloc: Global,
    store: &Store,
    f: &mut Feed,
    graph: &Arc<Graph>,
) -> Result<Message, AllocError>
    requires { IsFeed store.now (arc_value graph.now) f.old }
    ensures { IsFeed store.now (arc_value graph.now) f.new }
{
    f.known();
    let made = store.message(rt, alloc, f);
    f.known();
    made
}

/// The declaration that a tree is, which may stand behind those of a graph.
fn next_decl(alloc: Global, graph: &Graph, lib: &Library, tree: &Json) -> Result<Decl, DeclRefused>
    ensures { IfOk result (λ d. IsNext graph.now (decl_of d)) }
{
    read_declarations_are_lawful();
    read_decl(alloc, tree, graph, lib)
}

/// The same of a text.
fn read_next(alloc: Global, graph: &Graph, lib: &Library, text: &str) -> Result<Decl, Wrong>
    ensures { IfOk result (λ d. IsNext graph.now (decl_of d)) }
{
    match Json::from_slice(alloc, text.as_bytes()) {
        Ok(tree) => Ok(next_decl(alloc, graph, lib, &tree)?),
        Err(_) => Err(Wrong),
    }
}

/// A variable is declared behind the others, by which the graph is this longer one; where it is refused the graph stays.
fn extend<R: Wait>(
    rt: &R,
    store: &Store,
    f: &mut Feed,
    graph: &Arc<Graph>,
    decl: &Decl,
    longer: &Graph,
) -> Result<(), AllocError>
    requires feed { IsFeed store.now (arc_value graph.now) f.old }
    requires room { length (arc_value graph.now) < variable_limit }
    requires next { IsNext (arc_value graph.now) (decl_of decl.now) }
    requires longer { longer.now ≡ arc_value graph.now ++ decl_of decl.now ∷ [] }
    ensures ok { OnOk result (IsFeed store.now longer.now f.new) }
    ensures err { OnErr result (IsFeed store.now (arc_value graph.now) f.new) }
{
    f.known();
    let extended = store.extend(rt, f, decl);
    f.known();
    extended
}

/// The same, once more where memory was wanting.
fn extend_again<R: Wait>(
    rt: &R,
    store: &Store,
    f: &mut Feed,
    graph: &Arc<Graph>,
    decl: &Decl,
    longer: &Graph,
) -> Result<(), AllocError>
    requires feed { IsFeed store.now (arc_value graph.now) f.old }
    requires room { length (arc_value graph.now) < variable_limit }
    requires next { IsNext (arc_value graph.now) (decl_of decl.now) }
    requires longer { longer.now ≡ arc_value graph.now ++ decl_of decl.now ∷ [] }
    ensures { OnOk result (IsFeed store.now longer.now f.new) }
{
    match extend(rt, store, f, graph, decl, longer) {
        Ok(()) => Ok(()),
        Err(_) => extend(rt, store, f, graph, decl, longer),
    }
}

/// A variable is declared behind the others. It answers the longer graph.
pub fn declare<R: Wait>(
    rt: &R,
    alloc: Global,
    store: &Store,
    f: &mut Feed,
    graph: &Arc<Graph>,
    text: &str,
    lib: &Library,
) -> Result<Arc<Graph>, Wrong>
    requires { IsFeed store.now (arc_value graph.now) f.old }
    ensures { IfOk result (λ g. IsFeed store.now (arc_value g) f.new) }
{
    if graph.len() >= 64 {
        return Err(Wrong);
    }
    let decl = read_next(alloc, graph, lib, text)?;
    let longer = Arc::new(alloc, graph.with(alloc, &decl)?)?;
    match extend_again(rt, store, f, graph, &decl, &longer) {
        Ok(()) => Ok(longer),
        Err(error) => Err(Wrong::from(error)),
    }
}

/// Settles a store whose graph's functions are those of the library. It answers how many entries there are, or why it isn't settled.
pub fn settle_all<R: Wait>(
    rt: &R,
    alloc: Global,
    store: &Store,
    f: &mut Feed,
    graph: &Arc<Graph>,
    lib: &Library,
) -> Result<u64, Settle>
    requires feed { IsFeed store.now (arc_value graph.now) f.old }
    requires fits { FitsAll (library_of lib.now) (arc_value graph.now) }
    ensures { IsFeed store.now (arc_value graph.now) f.new }
{
    store.settle_all(rt, alloc, f, lib)
}

/// Settles a store, where the functions of its graph are those of the library.
pub fn settle<R: Wait>(
    rt: &R,
    alloc: Global,
    store: &Store,
    f: &mut Feed,
    graph: &Arc<Graph>,
    lib: &Library,
) -> Result<(), Wrong>
    requires { IsFeed store.now (arc_value graph.now) f.old }
    ensures { OnOk result (IsFeed store.now (arc_value graph.now) f.new) }
{
    if !graph.fits(lib) {
        return Err(Wrong);
    }
    match settle_all(rt, alloc, store, f, graph, lib) {
        Ok(_) => Ok(()),
        Err(_) => Err(Wrong),
    }
}
