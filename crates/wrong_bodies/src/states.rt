//! The states of variables and their thresholds.

ghost use Rattle.std.specs.Prelude.{◌≡◌, IfOk, IsTrue};
ghost use Rattle.model_states.specs.Threshold.{suits, meets};
ghost use Rattle.model_states.specs.Update.{delta};
ghost use Rattle.lasp_state.specs.State.{content_of, shape_of, op_of, IsOpOf};
ghost use Rattle.lasp_state.specs.Threshold.{threshold_of};

use lasp_state::{Op, State, Threshold};
use std::alloc::{AllocError, Global};

/// `lasp_state::State::delta`.
pub fn delta(
    alloc: Global,
    state: &State,
    op: &Op,
    replica: u8,
    k: u64,
) -> Result<State, AllocError>
    requires { IsOpOf op.now replica (shape_of state.now) }
    ensures content { IfOk result (λ s. content_of s ≡ delta (op_of op.now) (content_of state.now) replica k) }
{
    state.delta(alloc, op, replica, k)
}

/// `lasp_state::Threshold::meets`.
pub fn is_reached(threshold: &Threshold, state: &State) -> bool
    requires { IsTrue (suits (threshold_of threshold.now) (shape_of state.now)) }
    ensures { result ≡ meets (threshold_of threshold.now) (content_of state.now) }
{
    threshold.meets(state)
}
