//! What a settled node shows: a printed line, or whether a threshold is reached.

ghost use Rattle.std.specs.Prelude.{◌≡◌, ◌+◌, ◌∷◌, [], map, slice_get, Some, OnOk};
ghost use Rattle.lasp_drive.specs.Prelude.{meets, content_at, Show, Reach, until_of, NodeView, LooksAt, marked_of, Acts, Passes, MayAct, Reaches, UnlessMemory};
ghost use Rattle.model_world.specs.World as world;

use super::threshold::{is_least_held, threshold_of};
use crate::driver::Driver;
use crate::halt::Halt;
use crate::node::Node;
use crate::text::print_line;
use lasp_script::Until;
use std::alloc::Global;

impl<N: Node> Driver<N> {
    /// Prints variable x of node p.
    pub fn show(&mut self, c: u32, p: u8, x: u8) -> Result<(), Halt>
        requires { MayAct N.view N.read c self.old (Show p x) }
        ensures { Passes N.view N.read N.place c self.old (Show p x ∷ []) result self.new }
    {
        let state = self.nodes[p as usize].state(x)?;
        print_line(
            &mut self.text,
            p,
            self.graph.at(x as u64).name.as_str(),
            &state,
        )?;
        Ok(())
    }

    /// Goes on where variable x of node p is at the threshold. The read by which this is asked waits no more then.
    pub fn reach(&mut self, alloc: Global, c: u32, p: u8, x: u8, until: &Until) -> Result<(), Halt>
        requires { MayAct N.view N.read c self.old (Reach p x (until_of until.now)) }
        ensures acts { Acts N.view N.read N.place c (c + 1) self.old (Reach p x (until_of until.now) ∷ []) result self.new }
        ensures reached { (n : NodeView) → slice_get (map N.view self.old.nodes.items) p ≡ Some n → Reaches c (meets (world.threshold_of (map marked_of self.old.marks.items) (until_of until.now)) (content_at n.shown x)) result }
        ensures reads { UnlessMemory result (LooksAt (map N.view self.old.nodes.items) p (map N.view self.new.nodes.items)) }
        ensures same { OnOk result (self.new.reads ≡ self.old.reads) }
    {
        let threshold = threshold_of(alloc, &self.marks, until)?;
        let is_known = is_least_held(&self.marks, until, p);
        if self.nodes[p as usize].reached(alloc, x, threshold, is_known)? {
            Ok(())
        } else {
            Err(Halt::NotReached(c))
        }
    }
}
