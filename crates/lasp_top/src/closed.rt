//! A run over stores of its own, which are closed behind it.

ghost use Rattle.std.specs.Arc.{arc_value};
ghost use Rattle.lasp_run.specs.Prelude.{IsRunnable, library_of};
ghost use Rattle.lasp_top.specs.Closed.{RanClosed};

use lasp_core::Core;
use lasp_drive::Halt;
use lasp_fns::Library;
use lasp_graph::Graph;
use lasp_script::Script;
use lasp_threads::{close_stores, drive, fresh_stores};
use lasp_workers::Gate;
use model_runs::journals_with_the_calls_have_the_sources;
use std::alloc::{AllocGlobal, Global};
use std::random::RandomSource;
use std::sync::{Arc, Wait};
use std::thread::Threads;

/// Runs a script over stores of its own, by so many workers, and gives its report and the cores of its nodes.
pub(crate) fn run_closed<R: Threads + Wait + RandomSource + AllocGlobal + Sync, G: Gate + Sync>(
    rt: &R,
    alloc: Global,
    graph: &Arc<Graph>,
    script: &Script,
    workers: u8,
    lib: &Library,
    gate: &G,
) -> Result<(Vec<u8>, Vec<Core>), Halt>
    requires { IsRunnable (library_of lib.now) (arc_value graph.now) script.now }
    ensures { RanClosed (arc_value graph.now) script.now result }
{
    journals_with_the_calls_have_the_sources();
    let (stores, mut feeds) = fresh_stores(alloc, graph, script.nodes())?;
    match drive(
        rt,
        alloc,
        graph,
        stores.as_slice(),
        &mut feeds,
        script,
        workers,
        lib,
        gate,
    ) {
        Ok(report) => Ok((report, close_stores(alloc, stores, feeds)?)),
        Err(halt) => Err(halt),
    }
}
