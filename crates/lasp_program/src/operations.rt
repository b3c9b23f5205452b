//! The operations of the table's functions, as a library keeps them.

ghost use Rattle.std.specs.Prelude.{◌≡◌, IfOk, map};
ghost use Rattle.lasp_program.specs.Prelude.{map_op_of, pred_op_of, condition_view};

use crate::functions::Condition;
use lasp_fns::{MapOp, MapOps, PredOp, PredOps};
use lasp_value::Text;
use std::alloc::{AllocError, Global};

/// The steps of a map function.
pub fn steps_of(alloc: Global, steps: &[MapOp]) -> Result<MapOps, AllocError>
    ensures { IfOk result (λ ops. ops ≡ map map_op_of steps.now) }
{
    let mut ops = MapOps::new(alloc);
    for step in steps {
        ops.push(*step)?;
    }
    Ok(ops)
}

/// The conditions of a predicate.
pub fn conditions_of(alloc: Global, conditions: &[Condition]) -> Result<PredOps, AllocError>
    ensures { IfOk result (λ ops. ops ≡ map condition_view conditions.now) }
{
    let mut ops = PredOps::new(alloc);
    for condition in conditions {
        ops.push(condition_of(alloc, *condition)?)?;
    }
    Ok(ops)
}

fn condition_of(alloc: Global, condition: Condition) -> Result<PredOp, AllocError>
    ensures { IfOk result (λ op. pred_op_of op ≡ condition_view condition) }
{
    match condition {
        Condition::Even => Ok(PredOp::Even),
        Condition::Above(k) => Ok(PredOp::Above(k)),
        Condition::Below(k) => Ok(PredOp::Below(k)),
        Condition::IsText => Ok(PredOp::IsText),
        Condition::StartsWith(start) => Ok(PredOp::StartsWith(Text::of(alloc, start)?)),
        Condition::KeyMatch => Ok(PredOp::KeyMatch),
        Condition::Same => Ok(PredOp::Same),
    }
}
