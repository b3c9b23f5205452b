//! What a node shows at points: by its window, where that is known to have what the node has seen, else by its store.

ghost use Rattle.std.specs.Prelude.{◌≡◌, ◌<◌, IfOk, IfSome, length};
ghost use Rattle.std.specs.Arc.{arc_value};
ghost use Rattle.lasp_graph.specs.States.{held_of};
ghost use Rattle.lasp_core.specs.Core.{state_after};
ghost use Rattle.lasp_store.specs.Turn.{graph_seen, frame_of};
ghost use Rattle.lasp_drive.specs.Node.{OnlyLearns};
ghost use Rattle.lasp_store_node.specs.View.{node_seen, place_of};

use crate::node::StoreNode;
use crate::window::Window;
use lasp_state::State;
use std::alloc::{AllocError, Global};
use std::sync::{Arc, Wait};

/// As many variables a graph has at most.
pub(crate) const MOST_VARS: usize = 64;

impl<R: Wait> StoreNode<'_, R> {
    /// Whether the spy sees all that the journal has.
    #[tactic(auto, using(crate::proofs::WindowLaws::windows, crate::proofs::CountedLaws::stays_counted))]
    fn has_published(&mut self) -> bool
        ensures learns { OnlyLearns (node_seen self.old) (node_seen self.new) }
        ensures place { place_of self.new.feed ≡ place_of self.old.feed }
    {
        let entries = self.store.length(&mut self.feed);
        match &self.window {
            Some(window) => window.is_after(entries),
            None => false,
        }
    }

    /// Closes the window, as what is shared isn't put in order, and sees that what was shown once is published in order.
    #[tactic(auto, using(crate::proofs::WindowLaws::windows, crate::proofs::CountedLaws::stays_counted))]
    fn order_shown(&mut self)
        ensures learns { OnlyLearns (node_seen self.old) (node_seen self.new) }
        ensures place { place_of self.new.feed ≡ place_of self.old.feed }
    {
        self.window = None;
        self.feed.known();
        self.store.order_rows(self.rt, &mut self.feed, &self.shown);
        self.feed.known();
    }

    /// Publishes what the node then has seen, unless that is published. Where memory is wanting, states are shown by the store.
    #[tactic(auto, using(crate::proofs::WindowLaws::windows, crate::proofs::CountedLaws::stays_counted))]
    pub(crate) fn publish(&mut self, alloc: Global)
        ensures learns { OnlyLearns (node_seen self.old) (node_seen self.new) }
        ensures place { place_of self.new.feed ≡ place_of self.old.feed }
    {
        if self.has_published() {
            return;
        }
        self.order_shown();
        self.feed.known();
        self.window = Window::open(self.rt, self.store, alloc, &mut self.feed);
        self.feed.known();
    }

    /// The state of a variable by the window, which waits for nobody.
    #[tactic(auto, using(crate::proofs::WindowLaws::windows, crate::proofs::CountedLaws::stays_counted, crate::proofs::WindowLaws::peeks))]
    fn peek(&mut self, x: u8) -> Option<Arc<State>>
        requires { x < length (graph_seen self.old.feed) }
        ensures state { IfSome result (λ s. held_of (arc_value s) ≡ state_after (frame_of self.new.feed) self.new.feed.seen x) }
        ensures learns { OnlyLearns (node_seen self.old) (node_seen self.new) }
        ensures place { place_of self.new.feed ≡ place_of self.old.feed }
    {
        let entries = self.store.length(&mut self.feed);
        match &mut self.window {
            Some(window) => window.peek(x, entries),
            None => None,
        }
    }

    /// Notes that a variable is shown.
    fn note_shown(&mut self, x: u8)
        ensures { self.new ≡ self.old }
    {
        if let Some(is_shown) = self.shown.get_mut(x as usize) {
            *is_shown = true;
        }
    }

    /// The state of a variable, shared.
    #[tactic(auto, using(crate::proofs::WindowLaws::shows))]
    pub(crate) fn show(&mut self, x: u8) -> Result<Arc<State>, AllocError>
        requires { x < length (graph_seen self.old.feed) }
        ensures state { IfOk result (λ s. held_of (arc_value s) ≡ state_after (frame_of self.new.feed) self.new.feed.seen x) }
        ensures learns { OnlyLearns (node_seen self.old) (node_seen self.new) }
        ensures place { place_of self.new.feed ≡ place_of self.old.feed }
    {
        self.note_shown(x);
        match self.peek(x) {
            Some(state) => Ok(state),
            None => self.look(x),
        }
    }
}
