//! A whole run on nodes of any engine, which come back, as do the workers.

ghost use Rattle.std.specs.Prelude.{◌≡◌, OnOk, OnErr, map};
ghost use Rattle.std.specs.Arc.{arc_value};
ghost use Rattle.model_world.specs.World.{ended};
ghost use Rattle.model_world.specs.Report.{report_of};
ghost use Rattle.lasp_graph.specs.Library.{library_of};
ghost use Rattle.lasp_drive.specs.Run.{IsRunnable, Reports};
ghost use Rattle.lasp_drive.specs.Node.{AreFresh};
ghost use Rattle.lasp_threads.specs.Ran.{HaveEnded, HaveBegun};

use crate::stretch::run_beside;
use crate::worker::Works;
use lasp_drive::{Driver, Halt, Node};
use lasp_fns::Library;
use lasp_graph::Graph;
use lasp_script::Script;
use std::alloc::Global;
use std::sync::{Arc, Wait};
use std::thread::Threads;

/// Runs a script on these nodes, to which nothing has happened, while the workers work in its stretches, and gives its report. The nodes come back also where the run stops.
pub(crate) fn report_on<N: Node, R: Threads + Wait, T: Sync, W: Works<T> + Send>(
    rt: &R,
    workers: Vec<W>,
    tools: &T,
    alloc: Global,
    graph: Arc<Graph>,
    nodes: Vec<N>,
    lib: &Library,
    script: &Script,
) -> (Vec<W>, Vec<N>, Result<Vec<u8>, Halt>)
    requires runnable { IsRunnable (library_of lib.now) (arc_value graph) script.now }
    requires fresh { AreFresh (arc_value graph) script.now.nodes script.now.nodes (map N.view nodes.items) }
    ensures reports { Reports (ended (arc_value graph) script.now) report_of result.2 }
    ensures ran { OnOk result.2 (HaveEnded (arc_value graph) script.now (map N.view result.1.items)) }
    ensures stopped { OnErr result.2 (HaveBegun (arc_value graph) script.now (map N.view result.1.items)) }
    ensures in_place { map N.place result.1.items ≡ map N.place nodes.items }
    ensures workers { map W.place result.0.items ≡ map W.place workers.items }
{
    let fresh = Driver::of(alloc, graph, nodes);
    let (workers, mut driver, end) = run_beside(rt, workers, tools, fresh, alloc, lib, script);
    match end {
        Ok(()) => match driver.report(alloc) {
            Ok(text) => (workers, driver.into_nodes(), Ok(text)),
            Err(_) => (workers, driver.into_nodes(), Err(Halt::Memory)),
        },
        Err(halt) => (workers, driver.into_nodes(), Err(halt)),
    }
}
