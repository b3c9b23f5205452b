//! A whole script by deltas.

ghost use Rattle.std.specs.Prelude.{◌≡◌, ◌<◌, ◌∷◌, []};
ghost use Rattle.std.specs.Arc.{arc_value};
ghost use Rattle.model_readings.specs.Lawful.{IsGraph, FitsAll};
ghost use Rattle.model_scripts.specs.Progress.{grown};
ghost use Rattle.lasp_graph.specs.Library.{library_of};
ghost use Rattle.lasp_script.specs.Command.{command_of};
ghost use Rattle.lasp_drive.specs.Run.{IsRunnable};
ghost use Rattle.lasp_delta.specs.Seen.{delta_seen};
ghost use Rattle.lasp_delta.specs.Acts.{is_quiet, GoesBy, MayGoBy};
ghost use Rattle.lasp_delta.specs.Play.{Begins, Plays, Reports};

use crate::run::deltas::DeltaRun;
use lasp_drive::{FreshNode, Halt, Node};
use lasp_fns::Library;
use lasp_graph::Graph;
use lasp_script::{Command, Script};
use std::alloc::Global;
use std::sync::Arc;

/// Whether by a command nothing is sent and nothing taken.
fn is_quiet(command: &Command) -> bool
    ensures { result ≡ is_quiet (command_of command.now) }
{
    match command {
        Command::Send(_) | Command::Deliver(_, _) | Command::Sync => false,
        Command::Add(_, _, _)
        | Command::Remove(_, _, _)
        | Command::Insert(_, _, _)
        | Command::Inc(_, _, _)
        | Command::Max(_, _, _)
        | Command::Mark(_, _)
        | Command::Bind(_, _, _)
        | Command::Settle
        | Command::Print(_, _)
        | Command::Read(_, _, _)
        | Command::Await(_, _, _)
        | Command::Declare(_) => true,
    }
}

impl<N: Node> DeltaRun<N> {
    /// Does command number c. The driver does every command that sends and takes nothing.
    fn step(&mut self, alloc: Global, lib: &Library, c: u32, command: &Command) -> Result<(), Halt>
        requires may { MayGoBy c (delta_seen N.view N.read self.old) (command_of command.now) }
        requires graph { IsGraph (grown (arc_value self.old.driver.graph) (command_of command.now ∷ [])) }
        requires fits { FitsAll (library_of lib.now) (arc_value self.old.driver.graph) }
        ensures { GoesBy c (delta_seen N.view N.read self.old) (command_of command.now) result (delta_seen N.view N.read self.new) }
    {
        if is_quiet(command) {
            return self.driver.step(alloc, lib, c, command);
        }
        match command {
            Command::Send(p) => self.post(alloc, c, *p),
            Command::Deliver(p, i) => self.take(alloc, c, *p, *i),
            Command::Sync => self.sync(alloc, c),
            _ => unreachable!(),
        }
    }

    /// Does the commands of a script in order, and settles every node at the end.
    fn play(
        &mut self,
        alloc: Global,
        graph: &Graph,
        lib: &Library,
        script: &Script,
    ) -> Result<(), Halt>
        requires runnable { IsRunnable (library_of lib.now) graph.now script.now }
        requires begins { Begins graph.now script.now.nodes (delta_seen N.view N.read self.old) }
        ensures { Plays graph.now script.now (delta_seen N.view N.read self.old) result (delta_seen N.view N.read self.new) }
    {
        let _first = graph;
        for i in 0..script.len() {
            match self.step(alloc, lib, i as u32 + 1, script.at(i)) {
                Ok(()) => {}
                Err(halt) => return Err(halt),
            }
        }
        self.driver.point(alloc, lib, script.len() as u32 + 1)
    }
}

/// Runs a script against its graph on nodes of one engine, with messages that travel as deltas, and writes the report of the run and `delta DELIVERIES GAPS BYTES`.
pub fn deltas_on<N: FreshNode>(
    alloc: Global,
    graph: &Arc<Graph>,
    lib: &Library,
    script: &Script,
) -> Result<Vec<u8>, Halt>
    requires { IsRunnable (library_of lib.now) (arc_value graph.now) script.now }
    ensures { Reports (arc_value graph.now) script.now result }
{
    let mut run: DeltaRun<N> = DeltaRun::new(alloc, graph, script.nodes())?;
    match run.play(alloc, graph, lib, script) {
        Ok(()) => Ok(run.report(alloc)?),
        Err(halt) => Err(halt),
    }
}
