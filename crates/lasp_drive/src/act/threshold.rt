//! The thresholds of reads, with what their marks keep.

ghost use Rattle.std.specs.Prelude.{◌≡◌, IfOk, IsTrue, length, map};
ghost use Rattle.lasp_drive.specs.Prelude.{until_of, marked_of, IsUntilWithin, IsLeastHeld};
ghost use Rattle.model_world.specs.World as world;
ghost use Rattle.lasp_state.specs.Threshold.{threshold_of};

use crate::driver::Mark;
use lasp_script::Until;
use lasp_state::Threshold;
use lasp_value::Values;
use std::alloc::{AllocError, Global};
use std::sync::Arc;

/// Equal values.
fn copy_values(alloc: Global, values: &Values) -> Result<Values, AllocError>
    ensures { IfOk result (λ copy. copy ≡ values.now) }
{
    let mut copy = Values::new(alloc);
    for i in 0..values.len() {
        copy.push(values.at(i).try_clone(alloc)?)?;
    }
    Ok(copy)
}

/// Whether a node is known to hold the mark of which a command asks for at least what it keeps.
pub(super) fn is_least_held(marks: &[Mark], until: &Until, node: u8) -> bool
    requires { IsUntilWithin (length marks.now) until.now }
    ensures { IsTrue result → IsLeastHeld marks.now until.now node }
{
    match until {
        Until::AtLeast(mark) | Until::Above(mark) => marks[*mark as usize].known.contains(&node),
        Until::Count(_) | Until::Added(_) | Until::Removed(_) => false,
    }
}

/// The threshold that a command asks for. What a mark keeps is shared.
pub(super) fn threshold_of(
    alloc: Global,
    marks: &[Mark],
    until: &Until,
) -> Result<Threshold, AllocError>
    requires { IsUntilWithin (length marks.now) until.now }
    ensures { IfOk result (λ t. threshold_of t ≡ world.threshold_of (map marked_of marks.now) (until_of until.now)) }
{
    match until {
        Until::AtLeast(mark) => {
            let state = Arc::try_clone(&marks[*mark as usize].state)?;
            Ok(Threshold::AtLeast(state))
        }
        Until::Above(mark) => {
            let state = Arc::try_clone(&marks[*mark as usize].state)?;
            Ok(Threshold::Above(state))
        }
        Until::Count(count) => Ok(Threshold::Count(*count)),
        Until::Added(values) => Ok(Threshold::Added(copy_values(alloc, values)?)),
        Until::Removed(values) => Ok(Threshold::Removed(copy_values(alloc, values)?)),
    }
}
