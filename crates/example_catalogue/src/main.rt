//! Two branches of a shop, with a replica each of one catalogue. `requires` and `ensures` are proved before anything is built; the rest is Rust in which all that takes memory may fail.
#![tactic(auto)]

ghost use Rattle.std.specs.Prelude.{◌≡◌, ◌≤◌, ◌∷◌, ◌<◌, [], IfOk, OnOk, length, pos};
ghost use Rattle.model_functions.specs.Map.{Second};
ghost use Rattle.model_functions.specs.Predicate.{Below, passes};
ghost use Rattle.lasp_fns.specs.Prelude.{Answers, val_of};
ghost use Rattle.lasp_node.specs.Settling.{IsIdle};

use anyhow::{Context, ensure};
use lasp_core::Core;
use lasp_edge::{DirFiles, Files};
use lasp_fns::{Library, MapOp, MapOps, PredOp, PredOps, StepLib, StoredMap, StoredPred};
use lasp_graph::{Graph, read_graph};
use lasp_node::{message_of, settle};
use lasp_state::{Op, Threshold, print_state};
use lasp_value::{Text, Value};
use std::alloc::{AllocError, Global};
use std::sync::Arc;

/// A branch that has one good, a pair of its name and its price, of at most 256 bytes of text together. No job of it is out.
fn branch(alloc: Global, graph: &Arc<Graph>, me: u8, name: &str, price: i64) -> anyhow::Result<Core>
    requires small { length name.now ≤ 256 }
    requires member { me < 2 }
    ensures { IfOk result (λ core. IsIdle core.busy) }
{
    let goods = graph.find("goods").context("no goods")?;
    let mut core = Core::new(alloc, Arc::try_clone(graph)?, me, 2)?;
    let name = Box::new(alloc, Value::Text(Text::of(alloc, name)?))?;
    let good = Value::Pair(name, Box::new(alloc, Value::Int(price))?);
    core.update(0, goods, &Op::Add(good))?;
    // this read is parked until there are more goods than now
    let more = Threshold::Above(Arc::try_clone(core.state(goods))?);
    ensure!(more.suits(core.state(goods)), "they are of another kind");
    core.open_read(goods, more)?;
    Ok(core)
}

/// Brings a branch what another one has, all of it in one message, and tells how many reads that released.
fn send(alloc: Global, from: &Core, number: u32, to: &mut Core) -> anyhow::Result<u64>
    requires { IsIdle to.old.busy }
    ensures { OnOk result (IsIdle to.new.busy) }
{
    let message = Arc::new(alloc, message_of(alloc, from)?)?;
    Ok(to.deliver(0, number, &message)?.len())
}

/// Does all jobs of a branch, so that prices and offers follow its goods, and prints what each variable shows.
fn show(rt: &HostRuntime, branch: &str, core: &mut Core, library: &Library) -> anyhow::Result<()>
    requires { IsIdle core.old.busy }
{
    ensure!(core.graph().fits(library), "it is of another library");
    settle(rt.alloc(), core, &mut StepLib::new(library))?;
    core.recall(); // at most 64 variables, so that a number of one fits a byte
    for var in 0..core.graph().len() {
        let shown = print_state(rt.alloc(), core.state(var as u8))?;
        let name = core.graph().at(var).name.as_str();
        println!(rt; "{branch} {name} {}", shown.as_str())?;
    }
    Ok(())
}

/// The branches send each other what they have, and show what follows.
fn trade(rt: &HostRuntime, library: &Library) -> anyhow::Result<()> {
    let alloc = rt.alloc();
    let path = std::env::args(rt)?.nth(1).context("name the graph's file")?;
    let json = DirFiles::new(rt).fetch(alloc, path.as_str(), 4096)?;
    let graph = Arc::new(alloc, read_graph(alloc, &json, library)?)?;
    let mut north = branch(alloc, &graph, 0, "lamp", 30)?;
    let mut south = branch(alloc, &graph, 1, "soap", 3)?;
    println!(rt; "{} read is released", send(alloc, &north, 0, &mut south)?)?;
    println!(rt; "{} read is released", send(alloc, &south, 1, &mut north)?)?;
    show(rt, "north", &mut north, library)?;
    show(rt, "south", &mut south, library)
}

#[tactic(auto, unfolding(model_functions::specs::Map::mapped, model_functions::specs::Predicate::passes))]
fn main(rt: HostRuntime) -> anyhow::Result<()> {
    let alloc = rt.alloc();
    // what it answers is what the operation `Second` makes of any value
    let price = move |v: &Value| -> Result<Value, AllocError>
        ensures { Answers (Second ∷ []) (val_of v.entry.now) result }
    {
        match v {
            Value::Pair(_, price) => price.try_clone(alloc),
            _ => v.try_clone(alloc),
        }
    };
    let is_low = |v: &Value| -> bool
        ensures { result ≡ passes (Below (pos 10) ∷ []) (val_of v.entry.now) }
    { matches!(v, Value::Int(price) if *price < 10) };
    // each is kept beside its operations, under the name that the graph gives it
    let (mut second, mut below) = (MapOps::new(alloc), PredOps::new(alloc));
    second.push(MapOp::Second)?;
    below.push(PredOp::Below(10))?;
    let mut library = Library::new(alloc);
    library.add_map("price", StoredMap::new(second, Box::new(alloc, price)?))?;
    library.add_pred("on_offer", StoredPred::new(below, Box::new(alloc, is_low)?))?;
    trade(&rt, &library)
}
