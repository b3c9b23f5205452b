//! Commands that update a source.

ghost use Rattle.model_world.specs.Command as plain;
ghost use Rattle.lasp_drive.specs.Prelude.{val_of, MayStep, Steps};

use crate::driver::{Driver, note};
use crate::halt::Halt;
use crate::node::Node;
use lasp_state::Op;
use lasp_value::Value;
use lasp_wire::recall_value;
use std::alloc::Global;
use std::sync::Arc;

impl<N: Node> Driver<N> {
    /// Adds a value to an observed-remove set.
    pub(super) fn add(
        &mut self,
        alloc: Global,
        c: u32,
        p: u8,
        x: u8,
        value: &Value,
    ) -> Result<(), Halt>
        requires { MayStep N.view N.read c self.old (plain.Add p x (val_of value.now)) }
        ensures { Steps N.view N.read N.place c self.old (plain.Add p x (val_of value.now)) result self.new }
    {
        recall_value(value);
        let op = Op::Add(value.try_clone(alloc)?);
        self.update(alloc, c, p, x, &op)
    }

    /// Removes a value from an observed-remove set.
    pub(super) fn remove(
        &mut self,
        alloc: Global,
        c: u32,
        p: u8,
        x: u8,
        value: &Value,
    ) -> Result<(), Halt>
        requires { MayStep N.view N.read c self.old (plain.Remove p x (val_of value.now)) }
        ensures { Steps N.view N.read N.place c self.old (plain.Remove p x (val_of value.now)) result self.new }
    {
        recall_value(value);
        let op = Op::Remove(value.try_clone(alloc)?);
        self.update(alloc, c, p, x, &op)
    }

    /// Inserts a value into a grow-only set.
    pub(super) fn insert(
        &mut self,
        alloc: Global,
        c: u32,
        p: u8,
        x: u8,
        value: &Value,
    ) -> Result<(), Halt>
        requires { MayStep N.view N.read c self.old (plain.Insert p x (val_of value.now)) }
        ensures { Steps N.view N.read N.place c self.old (plain.Insert p x (val_of value.now)) result self.new }
    {
        recall_value(value);
        let op = Op::Insert(value.try_clone(alloc)?);
        self.update(alloc, c, p, x, &op)
    }

    /// Joins in what a mark keeps.
    pub(super) fn bind(
        &mut self,
        alloc: Global,
        c: u32,
        p: u8,
        x: u8,
        mark: u32,
    ) -> Result<(), Halt>
        requires { MayStep N.view N.read c self.old (plain.Bind p x mark) }
        ensures { Steps N.view N.read N.place c self.old (plain.Bind p x mark) result self.new }
    {
        let marked = &self.marks[mark as usize];
        let is_held = marked.known.contains(&p);
        let state = Arc::try_clone(&marked.state)?;
        self.nodes[p as usize].recall();
        match self.update_with(alloc, c, p, x, &Op::Join(state), is_held) {
            Ok(()) => {
                self.nodes[p as usize].recall();
                note(&mut self.marks, mark, p);
                Ok(())
            }
            Err(halt) => Err(halt),
        }
    }
}
