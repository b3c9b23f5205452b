//! `load`: a generated script over a generated graph, run by workers, and its summary.

ghost use Rattle.std.specs.Prelude.{◌<◌};
ghost use Rattle.std.specs.Arc.{arc_value};
ghost use Rattle.model_program.specs.Summary.{load_text};
ghost use Rattle.model_program.specs.Threads.{loaded_over, load_answer};
ghost use Rattle.lasp_run.specs.Prelude.{FitsAll, Gives, run_answer, IsRunnable, library_of};

use crate::closed::run_closed;
use crate::{load_graph, load_script, load_text};
use lasp_call::{graph_from, script_from};
use lasp_fns::Library;
use lasp_graph::Graph;
use lasp_run::failure_of;
use lasp_script::Script;
use lasp_workers::Gate;
use model_program::Failure;
use model_runs::journals_with_the_calls_have_the_sources;
use std::alloc::{AllocGlobal, Global};
use std::random::RandomSource;
use std::sync::{Arc, Wait};
use std::thread::Threads;

/// Runs the script over its graph by so many workers, and gives the summary.
fn summary<R: Threads + Wait + RandomSource + AllocGlobal + Sync, G: Gate + Sync>(
    rt: &R,
    alloc: Global,
    graph: &Arc<Graph>,
    script: &Script,
    seed: u32,
    count: u32,
    workers: u8,
    lib: &Library,
    gate: &G,
) -> Result<Vec<u8>, Failure>
    requires { IsRunnable (library_of lib.now) (arc_value graph.now) script.now }
    ensures { Gives (λ text. text.items) (run_answer (load_text seed count) (arc_value graph.now) script.now) result }
{
    journals_with_the_calls_have_the_sources();
    match run_closed(rt, alloc, graph, script, workers, lib, gate) {
        Ok((_, cores)) => match load_text(alloc, seed, count, &cores) {
            Ok(text) => Ok(text),
            Err(_) => Err(Failure::Memory),
        },
        Err(halt) => Err(failure_of(graph, script, halt)),
    }
}

/// Makes the script of a seed and a count, and runs it over the graph.
fn load_over<R: Threads + Wait + RandomSource + AllocGlobal + Sync, G: Gate + Sync>(
    rt: &R,
    alloc: Global,
    graph: &Arc<Graph>,
    seed: u32,
    count: u32,
    workers: u8,
    lib: &Library,
    gate: &G,
) -> Result<Vec<u8>, Failure>
    requires seed { seed < 2147483648 }
    requires fits { FitsAll (library_of lib.now) (arc_value graph.now) }
    ensures { Gives (λ text. text.items) (loaded_over (library_of lib.now) seed count (arc_value graph.now)) result }
{
    match load_script(alloc, seed, count) {
        Ok(bytes) => match script_from(alloc, graph, &bytes, lib) {
            Ok(script) => summary(rt, alloc, graph, &script, seed, count, workers, lib, gate),
            Err(failure) => Err(failure),
        },
        Err(_) => Err(Failure::Memory),
    }
}

/// `load`: makes a graph and a script, and runs them by so many workers.
pub(crate) fn run_load<R: Threads + Wait + RandomSource + AllocGlobal + Sync, G: Gate + Sync>(
    rt: &R,
    alloc: Global,
    seed: u32,
    count: u32,
    workers: u8,
    lib: &Library,
    gate: &G,
) -> Result<Vec<u8>, Failure>
    requires { seed < 2147483648 }
    ensures { Gives (λ text. text.items) (load_answer (library_of lib.now) seed count) result }
{
    match graph_from(alloc, load_graph().as_bytes(), lib) {
        Ok(graph) => load_over(rt, alloc, &graph, seed, count, workers, lib, gate),
        Err(failure) => Err(failure),
    }
}
