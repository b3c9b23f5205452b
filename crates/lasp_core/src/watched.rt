//! What a reader asks of a replica, however it comes by it, and answers of the layers above.

ghost use Rattle.std.specs.Prelude.{◌≡◌, ◌<◌, ◌≤◌, ◌↔◌, ℕ, IfOk, IfSome, OnOk, is_some};
ghost use Rattle.std.specs.Arc.{arc_value};
ghost use Rattle.model_states.specs.Threshold.{meets};
ghost use Rattle.model_core.specs.Core.{Read};
ghost use Rattle.lasp_graph.specs.States.{Held, held_of};
ghost use Rattle.lasp_core.specs.Reads.{read_of};
ghost use Rattle.lasp_core.specs.Watched.{IsBusy};

use crate::read::ReadNo;
use lasp_state::State;
use std::alloc::AllocError;
use std::sync::Arc;

/// A call that may find its replica in another's hands.
#[derive(Drop)]
pub enum Try<E> {
    /// The replica was in another's hands. The call changed nothing but the count of misses.
    Busy,
    /// The call had its replica, and was refused.
    Refused(E),
}

/// Why a replica isn't settled.
#[derive(Drop)]
pub enum Settle {
    /// This variable is the least that would have more than 65,536 rows.
    TooLarge(u8),
    /// No memory was left.
    Memory,
}

/// A replica that is read without waiting for others. It is seen by what it knows of its variables, and by how often it looked, or found the replica in another's hands.
pub trait Watched {
    // where it stands: what tells it from others of its type
    ghost Place: { Type 0 };

    ghost place: { Self → Place };

    // how often it found its replica in another's hands
    ghost misses: { Self → ℕ };

    // how often it looked at its replica
    ghost looks: { Self → ℕ };

    // the state of a variable as it knows it: its shape, its content, a fold's number
    ghost now: { Self → ℕ → Held };

    // it knows all that there was when it looked last
    ghost IsFresh: { Self → Type 0 };

    // a read that may be polled
    ghost IsOpen: { Self → Read → Type 0 };

    /// The state of a read's variable, shared, where it is at the threshold.
    fn try_poll(&mut self, r: &ReadNo) -> Result<Option<Arc<State>>, Try<AllocError>>
        requires open { IsOpen self.old (read_of r.now) }
        ensures place { place self.new ≡ place self.old }
        ensures open { (other : Read) → IsOpen self.old other → IsOpen self.new other }
        ensures misses { misses self.old ≤ misses self.new }
        ensures looks { looks self.old ≤ looks self.new }
        ensures busy { IsBusy result ↔ (misses self.old < misses self.new) }
        ensures unlooked { IsBusy result → looks self.new ≡ looks self.old }
        ensures kept { IsBusy result → (x : ℕ) → now self.new x ≡ now self.old x }
        ensures still { IsBusy result → (IsFresh self.new ↔ IsFresh self.old) }
        ensures closed { IsBusy result → (other : Read) → IsOpen self.new other → IsOpen self.old other }
        ensures looked { OnOk result (looks self.old < looks self.new) }
        ensures fresh { OnOk result (IsFresh self.new) }
        ensures met { IfOk result (λ found. is_some found ≡ meets (read_of r.now).threshold (now self.new (read_of r.now).var).content) }
        ensures state { IfOk result (λ found. IfSome found (λ s. held_of (arc_value s) ≡ now self.new (read_of r.now).var)) };
}

/// A `&mut` to a replica that is read is one as well, so that a reader may be handed it and leave it behind.
impl<W: Watched> Watched for &mut W {
    ghost Place = { W.Place };

    ghost place = { λ w. W.place w.now };

    ghost misses = { λ w. W.misses w.now };

    ghost looks = { λ w. W.looks w.now };

    ghost now = { λ w. W.now w.now };

    ghost IsFresh = { λ w. W.IsFresh w.now };

    ghost IsOpen = { λ w. W.IsOpen w.now };

    fn try_poll(&mut self, r: &ReadNo) -> Result<Option<Arc<State>>, Try<AllocError>> {
        (**self).try_poll(r)
    }
}
