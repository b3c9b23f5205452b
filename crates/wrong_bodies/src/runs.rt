//! Runs of scripts over nodes of any engine.

ghost use Rattle.std.specs.Prelude.{◌≡◌, ◌+◌, ◌≤◌, drop, length};
ghost use Rattle.std.specs.Arc.{arc_value};
ghost use Rattle.lasp_graph.specs.Library.{library_of};
ghost use Rattle.lasp_drive.specs.Driver.{seen};
ghost use Rattle.lasp_drive.specs.Play.{MayPlay, Plays};
ghost use Rattle.lasp_drive.specs.Run.{IsRunnable, RunsTo};
ghost use Rattle.lasp_drive.specs.Stretch.{MayGoOn, Advances};

use lasp_drive::{Beside, Driver, FreshNode, Halt, Node};
use lasp_fns::Library;
use lasp_graph::Graph;
use lasp_script::Script;
use std::alloc::Global;
use std::sync::Arc;

/// `lasp_drive::run_on`.
pub fn run_on<N: FreshNode>(
    alloc: Global,
    graph: &Arc<Graph>,
    lib: &Library,
    script: &Script,
) -> Result<Driver<N>, Halt>
    requires { IsRunnable (library_of lib.now) (arc_value graph.now) script.now }
    ensures { RunsTo N.view N.read (arc_value graph.now) script.now result }
{
    lasp_drive::run_on::<N>(alloc, graph, lib, script)
}

/// `lasp_drive::run_through`.
pub fn run_through<N: Node, B: Beside>(
    driver: Driver<N>,
    alloc: Global,
    lib: &Library,
    script: &Script,
    beside: &mut B,
) -> (Driver<N>, Result<(), Halt>)
    requires { MayPlay (library_of lib.now) (seen N.view N.read driver) script.now.commands }
    ensures plays { Plays N.view N.read N.place driver script.now.commands result.1 result.0 }
    ensures place { B.place beside.new ≡ B.place beside.old }
{
    lasp_drive::run_through(driver, alloc, lib, script, beside)
}

/// `lasp_drive::advance`.
pub fn advance<N: Node>(
    driver: Driver<N>,
    alloc: Global,
    lib: &Library,
    script: &Script,
    from: u64,
) -> (Driver<N>, Result<u64, Halt>)
    requires within { from ≤ length script.now.commands }
    requires may { MayGoOn (library_of lib.now) (from + 1) (seen N.view N.read driver) (drop from script.now.commands) }
    ensures { Advances N.view N.read N.place (library_of lib.now) from script.now.commands driver result.1 result.0 }
{
    lasp_drive::advance(driver, alloc, lib, script, from)
}
