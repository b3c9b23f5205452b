//! Commands that settle every node first.

ghost use Rattle.std.specs.Prelude.{◌<◌, length};
ghost use Rattle.lasp_drive.specs.Prelude.{arc_value, variable_limit, FitsAll, IsNext, decl_of, library_of, until_of, MayStep, Steps};
ghost use Rattle.model_world.specs.Command as plain;

use crate::driver::Driver;
use crate::halt::Halt;
use crate::node::Node;
use lasp_fns::Library;
use lasp_graph::Decl;
use lasp_script::Until;
use std::alloc::Global;

impl<N: Node> Driver<N> {
    /// Every node is settled, and a variable is printed.
    pub(super) fn print(
        &mut self,
        alloc: Global,
        lib: &Library,
        c: u32,
        p: u8,
        x: u8,
    ) -> Result<(), Halt>
        requires may { MayStep N.view N.read c self.old (plain.Print p x) }
        requires fits { FitsAll (library_of lib.now) (arc_value self.old.graph) }
        ensures { Steps N.view N.read N.place c self.old (plain.Print p x) result self.new }
    {
        match self.point(alloc, lib, c) {
            Ok(()) => self.show(c, p, x),
            Err(halt) => Err(halt),
        }
    }

    /// Every node is settled, and a variable has to be at its threshold.
    pub(super) fn wait(
        &mut self,
        alloc: Global,
        lib: &Library,
        c: u32,
        p: u8,
        x: u8,
        until: &Until,
    ) -> Result<(), Halt>
        requires may { MayStep N.view N.read c self.old (plain.Await p x (until_of until.now)) }
        requires fits { FitsAll (library_of lib.now) (arc_value self.old.graph) }
        ensures { Steps N.view N.read N.place c self.old (plain.Await p x (until_of until.now)) result self.new }
    {
        match self.point(alloc, lib, c) {
            Ok(()) => self.reach(alloc, c, p, x, until),
            Err(halt) => Err(halt),
        }
    }

    /// Every node is settled, and a variable is declared.
    pub(super) fn declare(
        &mut self,
        alloc: Global,
        lib: &Library,
        c: u32,
        decl: &Decl,
    ) -> Result<(), Halt>
        requires may { MayStep N.view N.read c self.old (plain.Declare (decl_of decl.now)) }
        requires fits { FitsAll (library_of lib.now) (arc_value self.old.graph) }
        requires room { length (arc_value self.old.graph) < variable_limit }
        requires next { IsNext (arc_value self.old.graph) (decl_of decl.now) }
        ensures { Steps N.view N.read N.place c self.old (plain.Declare (decl_of decl.now)) result self.new }
    {
        match self.point(alloc, lib, c) {
            Ok(()) => self.extend(alloc, c, decl),
            Err(halt) => Err(halt),
        }
    }
}
