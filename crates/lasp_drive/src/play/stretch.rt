//! The commands of a script from one point to the next.

ghost use Rattle.std.specs.Prelude.{◌≡◌, ◌+◌, ◌≤◌, drop, length};
ghost use Rattle.lasp_drive.specs.Prelude.{library_of, command_of, is_point, seen, MayGoOn, Advances};

use crate::driver::Driver;
use crate::halt::Halt;
use crate::node::Node;
use lasp_fns::Library;
use lasp_script::{Command, Script};
use std::alloc::Global;

/// Whether a command is a point: every node is settled before it is done.
pub fn is_point(command: &Command) -> bool
    ensures { result ≡ is_point (command_of command.now) }
{
    match command {
        Command::Settle | Command::Print(_, _) | Command::Await(_, _, _) | Command::Declare(_) =>
            true,
        Command::Add(_, _, _)
        | Command::Remove(_, _, _)
        | Command::Insert(_, _, _)
        | Command::Inc(_, _, _)
        | Command::Max(_, _, _)
        | Command::Mark(_, _)
        | Command::Bind(_, _, _)
        | Command::Send(_)
        | Command::Deliver(_, _)
        | Command::Sync
        | Command::Read(_, _, _) => false,
    }
}

impl<N: Node> Driver<N> {
    /// Does the commands of a script from a place on, up to the next point or the script's end, and tells where that is. Places are counted from 0.
    fn go_on(
        &mut self,
        alloc: Global,
        lib: &Library,
        script: &Script,
        from: u64,
    ) -> Result<u64, Halt>
        requires within { from ≤ length script.now.commands }
        requires may { MayGoOn (library_of lib.now) (from + 1) (seen N.view N.read self.old) (drop from script.now.commands) }
        ensures { Advances N.view N.read N.place (library_of lib.now) from script.now.commands self.old result self.new }
    {
        for i in from..script.len() {
            let command = script.at(i);
            if is_point(command) {
                return Ok(i);
            }
            match self.step(alloc, lib, i as u32 + 1, command) {
                Ok(()) => {}
                Err(halt) => return Err(halt),
            }
        }
        Ok(script.len())
    }
}

/// A stretch: the commands of a script from a place on, up to the next point or the script's end, of which it tells the place. Places are counted from 0. The driver is handed back
/// also where the run stops.
pub fn advance<N: Node>(
    mut driver: Driver<N>,
    alloc: Global,
    lib: &Library,
    script: &Script,
    from: u64,
) -> (Driver<N>, Result<u64, Halt>)
    requires within { from ≤ length script.now.commands }
    requires may { MayGoOn (library_of lib.now) (from + 1) (seen N.view N.read driver) (drop from script.now.commands) }
    ensures { Advances N.view N.read N.place (library_of lib.now) from script.now.commands driver result.1 result.0 }
{
    let reached = driver.go_on(alloc, lib, script, from);
    (driver, reached)
}
