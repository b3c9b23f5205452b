//! What is kept of a node: marks of its sources, and reads that wait.

ghost use Rattle.std.specs.Prelude.{◌≡◌, ◌+◌, ◌∷◌, [], map, IfOk, OnOk};
ghost use Rattle.lasp_drive.specs.Prelude.{arc_value, Keep, Open, until_of, OpensAt, marked_of, Acts, Passes, MayAct, HasOpened};
ghost use Rattle.model_world.specs.World as world;

use super::threshold::threshold_of;
use crate::driver::{Driver, Mark, OpenRead};
use crate::halt::Halt;
use crate::node::Node;
use lasp_script::Until;
use lasp_state::State;
use std::alloc::{AllocError, Global};
use std::sync::Arc;

/// An equal state without tables, to be kept while its variable goes on growing.
fn past_of(alloc: Global, state: &State) -> Result<Arc<State>, AllocError>
    ensures { IfOk result (λ past. arc_value past ≡ state.now) }
{
    let past = state.past()?;
    Ok(Arc::new(alloc, past)?)
}

impl<N: Node> Driver<N> {
    /// Marks what source x of node p holds. It shares the rows, without a table, so that the node writes its own in place.
    pub fn keep(&mut self, c: u32, p: u8, x: u8) -> Result<(), Halt>
        requires { MayAct N.view N.read c self.old (Keep p x) }
        ensures { Passes N.view N.read N.place c self.old (Keep p x ∷ []) result self.new }
    {
        let alloc = *self.marks.allocator();
        self.nodes[p as usize].recall();
        let source = self.nodes[p as usize].source(x)?;
        let state = past_of(alloc, &source)?;
        let known = vec![in alloc; p]?;
        self.marks.push(Mark {
            var: x,
            state,
            known,
        })?;
        Ok(())
    }

    /// Opens a read of variable x at node p.
    pub fn open(&mut self, alloc: Global, c: u32, p: u8, x: u8, until: &Until) -> Result<(), Halt>
        requires { MayAct N.view N.read c self.old (Open p x (until_of until.now)) }
        ensures acts { Acts N.view N.read N.place c (c + 1) self.old (Open p x (until_of until.now) ∷ []) result self.new }
        ensures reads { OnOk result (OpensAt (map N.view self.old.nodes.items) p x (world.threshold_of (map marked_of self.old.marks.items) (until_of until.now)) (map N.view self.new.nodes.items)) }
        ensures opened { OnOk result (HasOpened N.view N.read p x (world.threshold_of (map marked_of self.old.marks.items) (until_of until.now)) self.old self.new) }
    {
        let threshold = threshold_of(alloc, &self.marks, until)?;
        let read = self.nodes[p as usize].open_read(alloc, x, threshold)?;
        self.reads.push(OpenRead { node: p, read })?;
        Ok(())
    }
}
