//! Calls of cores, each with what it asks for. Whatever they come to, a core's journal only goes on.

ghost use Rattle.std.specs.Prelude.{◌≡◌, ℕ, ◌<◌, ◌≤◌, IfOk, IfSome, IsTrue};
ghost use Rattle.model_graph.specs.Lawful.{IsDerived};
ghost use Rattle.model_readings.specs.Lawful.{IsNext};
ghost use Rattle.model_journal.specs.Journal.{graph};
ghost use Rattle.lasp_graph.specs.Decl.{decl_of};
ghost use Rattle.lasp_core.specs.Core.{IsOpen};
ghost use Rattle.lasp_core.specs.Reads.{read_of};
ghost use Rattle.lasp_replica.specs.Jobs.{IsJobOf, IsJobNow, IsResultOf, unread_rows};
ghost use Rattle.lasp_core.specs.Listed.{GoesOn};
ghost use Rattle.lasp_replica.specs.Replica.{IsSmall};

use crate::call::{Doing, Until};
use crate::traits;
use crate::wrong::Wrong;
use lasp_core::{Core, DeliverRefused, ReadNo, Released, UpdateRefused, jobs_have_the_unread_rows};
use lasp_fns::{Library, StepLib};
use lasp_graph::{
    Decl, DeclRefused, EvalAll, Graph, States, eval_by_variable, read_decl, read_graph,
};
use lasp_logset::add_delta;
use lasp_replica::Job;
use lasp_state::{Op, State, Threshold};
use lasp_value::{Value, Values};
use lasp_wire::Message;
use model_readings::read_declarations_are_lawful;
use model_runs::sources_stay_within_the_format;
use serde_json::Value as Json;
use std::alloc::{AllocError, Global};
use std::sync::Arc;

/// The core of replica `me` of two, to which nothing has happened.
pub fn core_of(alloc: Global, text: &str, lib: &Library, me: u8) -> Result<Core, Wrong>
    requires { me < 2 }
{
    let graph = read_graph(alloc, text.as_bytes(), lib)?;
    Ok(Core::new(alloc, Arc::new(alloc, graph)?, me, 2)?)
}

/// An operation by a number. A row that is joined in is one that an update of replica 0 may have added.
fn op_of(alloc: Global, doing: Doing, n: i64) -> Result<Op, AllocError>
    ensures { IfOk result (λ op. (nodes : ℕ) → 1 ≤ nodes → IsSmall nodes op) }
{
    let few = (n.unsigned_abs() % 1000) as u32;
    match doing {
        Doing::Add => Ok(Op::Add(Value::Int(n))),
        Doing::Remove => Ok(Op::Remove(Value::Int(n))),
        Doing::Insert => Ok(Op::Insert(Value::Int(n))),
        Doing::Count => Ok(Op::Inc(few)),
        Doing::Raise => Ok(Op::Max(n)),
        Doing::Join => {
            let rows = add_delta(alloc, &Value::Int(n), 0, u64::from(few) + 1)?;
            Ok(Op::Join(Arc::new(alloc, State::Set(rows))?))
        }
    }
}

/// An update by a number.
pub fn update(
    alloc: Global,
    core: &mut Core,
    var: u8,
    doing: Doing,
    n: i64,
) -> Result<Released, UpdateRefused>
    ensures frame { core.new.frame ≡ core.old.frame }
    ensures entries { GoesOn core.old.entries core.new.entries }
{
    core.recall();
    let op = op_of(alloc, doing, n)?;
    core.update(0, var, &op)
}

/// Joins a message in.
pub fn deliver(core: &mut Core, n: u32, message: &Arc<Message>) -> Result<Released, DeliverRefused>
    ensures frame { core.new.frame ≡ core.old.frame }
    ensures entries { GoesOn core.old.entries core.new.entries }
{
    core.deliver(1, n, message)
}

/// The declaration that a tree is, which may stand behind those of a graph.
fn next_decl(alloc: Global, graph: &Graph, lib: &Library, tree: &Json) -> Result<Decl, DeclRefused>
    ensures { IfOk result (λ d. IsNext graph.now (decl_of d)) }
{
    read_declarations_are_lawful();
    read_decl(alloc, tree, graph, lib)
}

/// Declares a variable behind those of a core, where there is room.
pub fn declare(alloc: Global, core: &mut Core, lib: &Library, text: &str) -> Result<(), Wrong>
    ensures frame { core.new.frame ≡ core.old.frame }
    ensures entries { GoesOn core.old.entries core.new.entries }
{
    let Ok(tree) = Json::from_slice(alloc, text.as_bytes()) else {
        return Err(Wrong::Refused);
    };
    if core.graph().len() >= 64 {
        return Err(Wrong::Refused);
    }
    let decl = next_decl(alloc, core.graph(), lib, &tree)?;
    core.extend(3, &decl)?;
    Ok(())
}

/// Whether a variable is declared and derived.
pub fn is_derived(core: &Core, var: u8) -> bool
    ensures { IsTrue result → IsDerived (graph core.now.frame core.now.entries) var }
{
    let graph = core.graph();
    u64::from(var) < graph.len() && !graph.at(u64::from(var)).kind.is_source()
}

/// Gives a job back, where its variable is derived.
pub fn give_back(core: &mut Core, job: Job)
    ensures frame { core.new.frame ≡ core.old.frame }
    ensures entries { core.new.entries ≡ core.old.entries }
{
    if is_derived(core, job.var) {
        traits::give_back(core, job);
    } else {
        drop(job.into_parts());
    }
}

/// A job of this variable, where it is derived, or else the next one, where there is one.
pub fn job_of(core: &mut Core, var: Option<u8>) -> Result<Option<Job>, AllocError>
    ensures frame { core.new.frame ≡ core.old.frame }
    ensures entries { core.new.entries ≡ core.old.entries }
    ensures job { IfOk result (λ found. IfSome found (λ job. IsJobNow core.new.frame core.new.entries job.var job)) }
{
    match var {
        Some(var) if is_derived(core, var) => Ok(Some(core.take_var(var)?)),
        Some(_) => Ok(None),
        None => core.take(),
    }
}

/// The changed rows of a job that was just taken: those that its variable hasn't read.
pub fn unread_of(core: &Core, job: &Job) -> u64
    requires { IsJobNow core.now.frame core.now.entries job.now.var job.now }
    ensures { result ≡ unread_rows core.now.frame core.now.entries job.now.var }
{
    jobs_have_the_unread_rows();
    job.changed_rows()
}

/// Hands a result in.
pub fn hand_in(core: &mut Core, job: Job, state: State) -> Result<Option<Released>, Wrong>
    requires job { IsJobOf core.old.frame core.old.entries job }
    requires result { IsResultOf core.old.frame core.old.entries job state }
    ensures frame { core.new.frame ≡ core.old.frame }
    ensures entries { GoesOn core.old.entries core.new.entries }
{
    match core.finish(2, job, state) {
        Ok(released) => Ok(Some(released)),
        Err((job, _)) => {
            drop(job.into_parts());
            Err(Wrong::Refused)
        }
    }
}

/// Brings a variable up to its inputs in place, where it is derived.
pub fn settle(core: &mut Core, lib: &mut StepLib, var: u8) -> Result<Option<Released>, Wrong>
    ensures frame { core.new.frame ≡ core.old.frame }
    ensures entries { GoesOn core.old.entries core.new.entries }
{
    if !is_derived(core, var) {
        return Ok(None);
    }
    if !core.graph().fits_steps(lib) {
        return Err(Wrong::Refused);
    }
    let unread = core.unread(var)?;
    Ok(Some(core.settle_var(4, var, &unread, lib)?))
}

/// What a read waits for.
pub fn threshold(
    alloc: Global,
    core: &Core,
    var: u8,
    until: Until,
    n: i64,
) -> Result<Threshold, AllocError> {
    let mut values = Values::new(alloc);
    values.push(Value::Int(n))?;
    match until {
        Until::Counted => Ok(Threshold::Count(n.unsigned_abs())),
        Until::Added => Ok(Threshold::Added(values)),
        Until::Removed => Ok(Threshold::Removed(values)),
        Until::More if u64::from(var) < core.graph().len() => {
            Ok(Threshold::Above(Arc::try_clone(core.state(var))?))
        }
        Until::More => Ok(Threshold::Count(0)),
    }
}

/// Opens a read, where its threshold suits its variable.
pub fn open(core: &mut Core, var: u8, threshold: Threshold) -> Result<Option<ReadNo>, AllocError>
    ensures frame { core.new.frame ≡ core.old.frame }
    ensures entries { core.new.entries ≡ core.old.entries }
    ensures open { IfOk result (λ found. IfSome found (λ r. IsOpen core.new.frame core.new.entries (read_of r))) }
{
    if u64::from(var) >= core.graph().len() || !threshold.suits(core.state(var)) {
        return Ok(None);
    }
    Ok(Some(core.open_read(var, threshold)?))
}

/// The states by plain evaluation of a core's sources, or none where the functions aren't those of the library.
pub fn evaluated(alloc: Global, core: &Core, lib: &Library) -> Result<States, EvalAll> {
    core.recall();
    sources_stay_within_the_format();
    let graph = core.graph();
    if graph.fits(lib) {
        eval_by_variable(alloc, graph, lib, core.states())
    } else {
        Ok(States::new(alloc))
    }
}
