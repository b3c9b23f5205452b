//! `run`: the graph, the script, and its run over stores with workers beside them.

ghost use Rattle.std.specs.Prelude.{◌<◌, length};
ghost use Rattle.lasp_run.specs.Prelude.{arc_value, report_of, ended, Gives, Follows, running, run_answer, AreUnchanged, AreLater, seen, IsRunnable, library_of, words_of, answered};
ghost use Rattle.lasp_drive.specs.Run.{Reports};

use lasp_drive::Halt;
use lasp_edge::Files;
use lasp_fns::Library;
use lasp_graph::Graph;
use lasp_run::{failure_of, open_run};
use lasp_script::Script;
use lasp_store::Store;
use lasp_threads::{drive, fresh_stores};
use lasp_workers::Gate;
use model_program::Failure;
use std::alloc::{AllocGlobal, Global};
use std::random::RandomSource;
use std::sync::{Arc, Wait};
use std::thread;
use std::thread::Threads;

/// Frees the stores of a run on a thread of its own, where one can be had: of large sets that takes as long as a job, and the report needn't wait for it.
fn free_aside<R: Threads>(rt: &R, stores: Vec<Store>) {
    let _ = thread::spawn(rt, move || drop(stores));
}

/// Runs a script over stores of its own, by so many workers.
fn drive_fresh<R: Threads + Wait + RandomSource + AllocGlobal + Sync, G: Gate + Sync>(
    rt: &R,
    alloc: Global,
    graph: &Arc<Graph>,
    script: &Script,
    workers: u8,
    lib: &Library,
    gate: &G,
) -> Result<Vec<u8>, Halt>
    requires { IsRunnable (library_of lib.now) (arc_value graph.now) script.now }
    ensures { Reports (ended (arc_value graph.now) script.now) report_of result }
{
    let (stores, mut feeds) = fresh_stores(alloc, graph, script.nodes())?;
    let report = drive(
        rt,
        alloc,
        graph,
        stores.as_slice(),
        &mut feeds,
        script,
        workers,
        lib,
        gate,
    );
    free_aside(rt, stores);
    report
}

#[tactic(auto, using(lasp_run::proofs::PartLaws::runs))]
/// Runs a script over its graph by so many workers, and gives the report.
fn report<R: Threads + Wait + RandomSource + AllocGlobal + Sync, G: Gate + Sync>(
    rt: &R,
    alloc: Global,
    graph: &Arc<Graph>,
    script: &Script,
    workers: u8,
    lib: &Library,
    gate: &G,
) -> Result<Vec<u8>, Failure>
    requires { IsRunnable (library_of lib.now) (arc_value graph.now) script.now }
    ensures { Gives (λ text. text.items) (run_answer report_of (arc_value graph.now) script.now) result }
{
    match drive_fresh(rt, alloc, graph, script, workers, lib, gate) {
        Ok(text) => Ok(text),
        Err(halt) => Err(failure_of(graph, script, halt)),
    }
}

/// `run`: reads the graph and the script, and runs them with so many workers.
pub(crate) fn run_threaded<
    R: Threads + Wait + RandomSource + AllocGlobal + Sync,
    F: Files,
    G: Gate + Sync,
>(
    rt: &R,
    alloc: Global,
    words: &[String],
    files: &mut F,
    workers: u8,
    lib: &Library,
    gate: &G,
) -> Result<Vec<u8>, Failure>
    requires { 2 < length words.now }
    ensures same { AreUnchanged F.content files.old files.new }
    ensures later { AreLater F.faults files.old files.new }
    ensures follows { Follows (words_of words.now) (seen F.content F.faults files.old files.new) (running (library_of lib.now) report_of) (answered result) }
{
    match open_run(alloc, words, files, lib) {
        Ok(opened) => report(rt, alloc, &opened.graph, &opened.script, workers, lib, gate),
        Err(failure) => Err(failure),
    }
}
