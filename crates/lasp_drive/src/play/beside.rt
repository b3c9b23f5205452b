//! A run, stretch by stretch, with what goes on beside it.

ghost use Rattle.std.specs.Prelude.{◌≡◌, ◌+◌, ◌<◌, ◌≤◌, drop, length};
ghost use Rattle.lasp_drive.specs.Prelude.{library_of, seen, MayGoOn, Advances, MayPlay, Plays, Crosses, PassesOn};

use crate::beside::Beside;
use crate::driver::Driver;
use crate::halt::Halt;
use crate::node::Node;
use crate::play::stretch::{advance, is_point};
use lasp_fns::Library;
use lasp_script::{Command, Script};
use std::alloc::Global;

impl<N: Node> Driver<N> {
    /// Does the point that a stretch came to, and tells where the next stretch begins. At the script's end there is none, and it begins there.
    fn cross(&mut self, alloc: Global, lib: &Library, script: &Script, i: u64) -> Result<u64, Halt>
        requires within { i ≤ length script.now.commands }
        requires may { MayGoOn (library_of lib.now) (i + 1) (seen N.view N.read self.old) (drop i script.now.commands) }
        ensures { Crosses N.view N.read N.place (library_of lib.now) i script.now.commands self.old result self.new }
    {
        if i == script.len() {
            return Ok(i);
        }
        match self.step(alloc, lib, i as u32 + 1, script.at(i)) {
            Ok(()) => Ok(i + 1),
            Err(halt) => Err(halt),
        }
    }
}

/// Whether a command changes what a node holds. A declaration is a point, and so no part of a stretch.
fn is_change(command: &Command) -> bool {
    match command {
        Command::Add(_, _, _)
        | Command::Remove(_, _, _)
        | Command::Insert(_, _, _)
        | Command::Inc(_, _, _)
        | Command::Max(_, _, _)
        | Command::Bind(_, _, _)
        | Command::Deliver(_, _)
        | Command::Sync => true,
        Command::Mark(_, _)
        | Command::Send(_)
        | Command::Settle
        | Command::Print(_, _)
        | Command::Read(_, _, _)
        | Command::Await(_, _, _)
        | Command::Declare(_) => false,
    }
}

/// How many commands of the stretch from a place on change what a node holds. No more are counted than is asked for.
fn changes_from(script: &Script, from: u64, most: u32) -> u32 {
    let mut changes: u32 = 0;
    for i in from..script.len() {
        let command = script.at(i);
        if is_point(command) || changes == most {
            break;
        }
        if is_change(command) {
            changes = changes.saturating_add(1);
        }
    }
    changes
}

/// Does a stretch with what goes on beside it. Where it changes nothing, nothing does.
fn stretch_beside<N: Node, B: Beside>(
    driver: Driver<N>,
    alloc: Global,
    lib: &Library,
    script: &Script,
    from: u64,
    beside: &mut B,
) -> (Driver<N>, Result<u64, Halt>)
    requires within { from ≤ length script.now.commands }
    requires may { MayGoOn (library_of lib.now) (from + 1) (seen N.view N.read driver) (drop from script.now.commands) }
    ensures advances { Advances N.view N.read N.place (library_of lib.now) from script.now.commands driver result.1 result.0 }
    ensures place { B.place beside.new ≡ B.place beside.old }
{
    let changes = changes_from(script, from, beside.most_counted());
    if changes == 0 {
        return advance(driver, alloc, lib, script, from);
    }
    beside.learn(&driver.graph);
    beside.go_beside(
        changes,
        move || -> (Driver<N>, Result<u64, Halt>)
            requires { (from ≤ length script.now.commands) × MayGoOn (library_of lib.now) (from + 1) (seen N.view N.read driver) (drop from script.now.commands) }
            ensures { Advances N.view N.read N.place (library_of lib.entry.now) from script.entry.now.commands driver result.1 result.0 }
        { advance(driver, alloc, lib, script, from) },
    )
}

/// Does a stretch with what goes on beside it, and then the point behind it, and tells where the next stretch begins.
fn pass_on<N: Node, B: Beside>(
    driver: Driver<N>,
    alloc: Global,
    lib: &Library,
    script: &Script,
    from: u64,
    beside: &mut B,
) -> (Driver<N>, Result<u64, Halt>)
    requires within { from < length script.now.commands }
    requires may { MayGoOn (library_of lib.now) (from + 1) (seen N.view N.read driver) (drop from script.now.commands) }
    ensures passes { PassesOn N.view N.read N.place (library_of lib.now) from script.now.commands driver result.1 result.0 }
    ensures place { B.place beside.new ≡ B.place beside.old }
{
    let (mut driver, reached) = stretch_beside(driver, alloc, lib, script, from, beside);
    match reached {
        Ok(i) => {
            let next = driver.cross(alloc, lib, script, i);
            (driver, next)
        }
        Err(halt) => (driver, Err(halt)),
    }
}

/// Does the commands of a script in order, with what goes on beside its stretches, and settles every node at the end. At that end each node has got exactly the calls that the script makes at it, behind those that it had. The driver is handed back also where the run stops.
pub fn run_through<N: Node, B: Beside>(
    mut driver: Driver<N>,
    alloc: Global,
    lib: &Library,
    script: &Script,
    beside: &mut B,
) -> (Driver<N>, Result<(), Halt>)
    requires { MayPlay (library_of lib.now) (seen N.view N.read driver) script.now.commands }
    ensures plays { Plays N.view N.read N.place driver script.now.commands result.1 result.0 }
    ensures place { B.place beside.new ≡ B.place beside.old }
{
    let mut from = 0;
    while from < script.len() {
        let (next, reached) = pass_on(driver, alloc, lib, script, from, beside);
        driver = next;
        match reached {
            Ok(i) => from = i,
            Err(halt) => return (driver, Err(halt)),
        }
    }
    let settled = driver.point(alloc, lib, from as u32 + 1);
    (driver, settled)
}
