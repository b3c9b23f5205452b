//! `trace`: the report of a run by workers, and behind it the journals of its nodes.

ghost use Rattle.std.specs.Prelude.{◌≡◌, ◌<◌, ◌≤◌, ◌++◌, length, IfOk, OnOk, string_bytes};
ghost use Rattle.std.specs.Arc.{arc_value};
ghost use Rattle.model_program.specs.Follows.{Allows};
ghost use Rattle.model_program.specs.Threads.{trace_answer, tracing};
ghost use Rattle.lasp_run.specs.Prelude.{Follows, AreUnchanged, AreLater, seen, IsRunnable, library_of, words_of, answered};
ghost use Rattle.lasp_top.specs.Closed.{traces_of};

use crate::closed::run_closed;
use lasp_core::{Core, push_journal};
use lasp_edge::Files;
use lasp_fns::Library;
use lasp_graph::Graph;
use lasp_run::{failure_of, open_run};
use lasp_script::Script;
use lasp_workers::Gate;
use model_program::Failure;
use std::alloc::{AllocError, AllocGlobal, Global};
use std::random::RandomSource;
use std::sync::{Arc, Wait};
use std::thread::Threads;

/// The lines of the journals of all nodes.
fn journals(alloc: Global, cores: &[Core]) -> Result<String, AllocError>
    requires { length cores.now ≤ 8 }
    ensures { IfOk result (λ text. string_bytes text ≡ traces_of 0 cores.now) }
{
    let mut text = String::new(alloc);
    for p in 0..cores.len() {
        push_journal(&mut text, p as u8, &cores[p])?;
    }
    Ok(text)
}

/// Appends the journals to a report.
fn push_journals(alloc: Global, report: &mut Vec<u8>, cores: &[Core]) -> Result<(), AllocError>
    requires { length cores.now ≤ 8 }
    ensures { OnOk result (report.new.items ≡ report.old.items ++ traces_of 0 cores.now) }
{
    let lines = journals(alloc, cores)?;
    report.extend_from_slice(lines.as_bytes())
}

/// Runs a script over its graph by so many workers, and gives the report and the journals.
fn trace<R: Threads + Wait + RandomSource + AllocGlobal + Sync, G: Gate + Sync>(
    rt: &R,
    alloc: Global,
    graph: &Arc<Graph>,
    script: &Script,
    workers: u8,
    lib: &Library,
    gate: &G,
) -> Result<Vec<u8>, Failure>
    requires { IsRunnable (library_of lib.now) (arc_value graph.now) script.now }
    ensures { Allows (trace_answer (arc_value graph.now) script.now) (answered result) }
{
    match run_closed(rt, alloc, graph, script, workers, lib, gate) {
        Ok((mut text, cores)) => match push_journals(alloc, &mut text, &cores) {
            Ok(()) => Ok(text),
            Err(_) => Err(Failure::Memory),
        },
        Err(halt) => Err(failure_of(graph, script, halt)),
    }
}

/// `trace`: reads the graph and the script, runs them with so many workers, and tells the journals.
pub(crate) fn run_traced<
    R: Threads + Wait + RandomSource + AllocGlobal + Sync,
    F: Files,
    G: Gate + Sync,
>(
    rt: &R,
    alloc: Global,
    words: &[String],
    files: &mut F,
    workers: u8,
    lib: &Library,
    gate: &G,
) -> Result<Vec<u8>, Failure>
    requires { 2 < length words.now }
    ensures same { AreUnchanged F.content files.old files.new }
    ensures later { AreLater F.faults files.old files.new }
    ensures follows { Follows (words_of words.now) (seen F.content F.faults files.old files.new) (tracing (library_of lib.now)) (answered result) }
{
    match open_run(alloc, words, files, lib) {
        Ok(opened) => trace(rt, alloc, &opened.graph, &opened.script, workers, lib, gate),
        Err(failure) => Err(failure),
    }
}
