//! States of what came since an earlier time.

ghost use Rattle.std.specs.Prelude.{◌<◌, ◌≤◌, IfOk, length, take};
ghost use Rattle.lasp_replica.specs.Prelude.{arc_value, kind_at, content_at, vals, held_of, held_at, frame_of, entries_of, IsReplica, IsSince, AreSince};

use super::Replica;
use lasp_graph::{Kind, States};
use lasp_state::State;
use std::alloc::AllocError;
use std::sync::Arc;

impl Replica {
    /// The states, of each source that is a set the rows alone that changed since the first n entries. It costs an insertion for each of these rows, which are shared, and a look at each growth of a set since.
    pub fn states_since(&self, n: u64) -> Result<States, AllocError>
        requires replica { IsReplica self.now }
        requires early { n ≤ length (entries_of self.now) }
        ensures { IfOk result (AreSince (arc_value self.now.graph) (vals (frame_of self.now) (take n (entries_of self.now))) self.now.states (length (arc_value self.now.graph))) }
    {
        self.graph.recall();
        let mut all = States::new(self.allocator());
        for x in 0..self.graph.len() {
            all.push(self.state_since(x as u8, n)?)?;
        }
        Ok(all)
    }

    fn state_since(&self, x: u8, n: u64) -> Result<Arc<State>, AllocError>
        requires replica { IsReplica self.now }
        requires early { n ≤ length (entries_of self.now) }
        requires var { x < length (arc_value self.now.graph) }
        ensures { IfOk result (λ s. IsSince (kind_at (arc_value self.now.graph) x) (content_at (vals (frame_of self.now) (take n (entries_of self.now))) x) (held_at self.now.states x) (held_of (arc_value s))) }
    {
        match self.graph.at(u64::from(x)).kind {
            Kind::OrSet => {
                let rows = self.changes(x, n)?;
                Ok(Arc::new(self.allocator(), State::Set(rows))?)
            }
            _ => Arc::try_clone(self.states.at(u64::from(x))),
        }
    }
}
