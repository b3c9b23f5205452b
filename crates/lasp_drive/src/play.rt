//! Runs a script, command by command.

ghost use Rattle.std.specs.Prelude.{◌<◌, ◌∷◌, []};
ghost use Rattle.lasp_drive.specs.Prelude.{arc_value, IsGraph, FitsAll, report_of, ended, grown, library_of, command_of, seen, MayStep, Steps, exported, IsRunnable, RunsTo, Reports};

mod beside;
mod point;
mod stretch;
mod update;

use crate::beside::Alone;
use crate::driver::Driver;
use crate::halt::Halt;
use crate::node::{FreshNode, Node};
pub use beside::run_through;
use lasp_fns::Library;
use lasp_graph::Graph;
use lasp_script::{Command, Script};
use lasp_state::Op;
use std::alloc::Global;
use std::sync::Arc;
pub use stretch::{advance, is_point};

impl<N: Node> Driver<N> {
    /// Does command number c: a point, too, between the stretches of a run.
    pub fn step(
        &mut self,
        alloc: Global,
        lib: &Library,
        c: u32,
        command: &Command,
    ) -> Result<(), Halt>
        requires may { MayStep N.view N.read c self.old (command_of command.now) }
        requires graph { IsGraph (grown (arc_value self.old.graph) (command_of command.now ∷ [])) }
        requires fits { FitsAll (library_of lib.now) (arc_value self.old.graph) }
        ensures { Steps N.view N.read N.place c self.old (command_of command.now) result self.new }
    {
        match command {
            Command::Add(p, x, v) => self.add(alloc, c, *p, *x, v),
            Command::Remove(p, x, v) => self.remove(alloc, c, *p, *x, v),
            Command::Insert(p, x, v) => self.insert(alloc, c, *p, *x, v),
            Command::Inc(p, x, by) => self.update(alloc, c, *p, *x, &Op::Inc(*by)),
            Command::Max(p, x, number) => self.update(alloc, c, *p, *x, &Op::Max(*number)),
            Command::Mark(p, x) => self.keep(c, *p, *x),
            Command::Bind(p, x, m) => self.bind(alloc, c, *p, *x, *m),
            Command::Send(p) => self.post(alloc, c, *p),
            Command::Deliver(p, i) => self.take(alloc, c, *p, *i),
            Command::Sync => self.sync(alloc, c),
            Command::Settle => self.point(alloc, lib, c),
            Command::Print(p, x) => self.print(alloc, lib, c, *p, *x),
            Command::Read(p, x, until) => self.open(alloc, c, *p, *x, until),
            Command::Await(p, x, until) => self.wait(alloc, lib, c, *p, *x, until),
            Command::Declare(decl) => self.declare(alloc, lib, c, decl),
        }
    }
}

/// Runs a script against its graph on nodes of one engine. The driver stands at the end of the script, every node is settled, and each has got exactly the calls that the script makes at it, in their order.
pub fn run_on<N: FreshNode>(
    alloc: Global,
    graph: &Arc<Graph>,
    lib: &Library,
    script: &Script,
) -> Result<Driver<N>, Halt>
    requires { IsRunnable (library_of lib.now) (arc_value graph.now) script.now }
    ensures { RunsTo N.view N.read (arc_value graph.now) script.now result }
{
    let fresh: Driver<N> = Driver::new(alloc, graph, script.nodes())?;
    let (driver, end) = run_through(fresh, alloc, lib, script, &mut Alone);
    match end {
        Ok(()) => Ok(driver),
        Err(halt) => Err(halt),
    }
}

/// Runs a script against its graph on nodes of one engine, and writes its report.
pub fn drive_on<N: FreshNode>(
    alloc: Global,
    graph: &Arc<Graph>,
    lib: &Library,
    script: &Script,
) -> Result<Vec<u8>, Halt>
    requires { IsRunnable (library_of lib.now) (arc_value graph.now) script.now }
    ensures { Reports (ended (arc_value graph.now) script.now) report_of result }
{
    match run_on::<N>(alloc, graph, lib, script) {
        Ok(mut driver) => Ok(driver.report(alloc)?),
        Err(halt) => Err(halt),
    }
}

/// Runs a script against its graph on nodes of one engine, and gives the bytes of what a node would send at the end.
pub fn export_on<N: FreshNode>(
    alloc: Global,
    graph: &Arc<Graph>,
    lib: &Library,
    script: &Script,
    node: u8,
) -> Result<Vec<u8>, Halt>
    requires runnable { IsRunnable (library_of lib.now) (arc_value graph.now) script.now }
    requires node { node < script.now.nodes }
    ensures { Reports (ended (arc_value graph.now) script.now) (exported node) result }
{
    match run_on::<N>(alloc, graph, lib, script) {
        Ok(mut driver) => Ok(driver.export(alloc, node)?),
        Err(halt) => Err(halt),
    }
}
