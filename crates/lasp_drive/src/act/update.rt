//! Updates of a node's source.

ghost use Rattle.std.specs.Prelude.{◌≡◌, ◌+◌, ◌∷◌, [], length, map, slice_get, Some, OnOk, IsTrue};
ghost use Rattle.lasp_drive.specs.Prelude.{arc_value, kind_at, shape_of, Update, op_of, IsOpOf, NodeView, IsIdleUpdate, Acts, MayAct};

use crate::driver::Driver;
use crate::halt::Halt;
use crate::node::{Node, NodeStop};
use lasp_state::Op;
use std::alloc::Global;

impl<N: Node> Driver<N> {
    /// Command number c updates source x of node p.
    pub fn update(&mut self, alloc: Global, c: u32, p: u8, x: u8, op: &Op) -> Result<(), Halt>
        requires may { MayAct N.view N.read c self.old (Update p x (op_of op.now)) }
        requires suits { IsOpOf op.now p (shape_of (length (map N.view self.old.nodes.items)) (kind_at (arc_value self.old.graph) x)) }
        ensures acts { Acts N.view N.read N.place c (c + 1) self.old (Update p x (op_of op.now) ∷ []) result self.new }
        ensures reads { OnOk result (self.new.reads ≡ self.old.reads) }
    {
        self.update_with(alloc, c, p, x, op, false)
    }

    /// The same, where it may be known that what the node's replica holds of the source stays as it is.
    pub fn update_with(
        &mut self,
        alloc: Global,
        c: u32,
        p: u8,
        x: u8,
        op: &Op,
        is_known: bool,
    ) -> Result<(), Halt>
        requires may { MayAct N.view N.read c self.old (Update p x (op_of op.now)) }
        requires suits { IsOpOf op.now p (shape_of (length (map N.view self.old.nodes.items)) (kind_at (arc_value self.old.graph) x)) }
        requires known { IsTrue is_known → (n : NodeView) → slice_get (map N.view self.old.nodes.items) p ≡ Some n → IsIdleUpdate n x op.now }
        ensures acts { Acts N.view N.read N.place c (c + 1) self.old (Update p x (op_of op.now) ∷ []) result self.new }
        ensures reads { OnOk result (self.new.reads ≡ self.old.reads) }
    {
        match self.nodes[p as usize].update(alloc, x, op, is_known) {
            Ok(()) => Ok(()),
            Err(NodeStop::TooLarge(_)) => Err(Halt::TooLarge(c, p, x)),
            Err(NodeStop::Memory) => Err(Halt::Memory),
        }
    }
}
