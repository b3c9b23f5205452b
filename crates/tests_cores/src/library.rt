//! A library of three functions, made of closures.

ghost use Rattle.std.specs.Prelude.{◌≡◌};
ghost use Rattle.model_values.specs.Size.{IsSized};
ghost use Rattle.model_functions.specs.Predicate.{passes};
ghost use Rattle.model_functions.specs.Lift as lift;
ghost use Rattle.model_functions.specs.Lift.{lifted};
ghost use Rattle.lasp_value.specs.Value.{val_of};
ghost use Rattle.lasp_fns.specs.Answers.{Answers};

use crate::wrong::Wrong;
use lasp_fns::{
    Library, LiftOp, MapOp, MapOps, PredOp, PredOps, StoredLift, StoredMap, StoredPred, apply_lift,
    apply_map, apply_pred,
};
use lasp_value::Value;
use std::alloc::{AllocError, Global};

/// The map function that leaves out signs.
fn abs(alloc: Global) -> Result<StoredMap, AllocError> {
    let mut steps = MapOps::new(alloc);
    steps.push(MapOp::Abs)?;
    let mine = steps.try_clone()?;
    let f = move |v: &Value| -> Result<Value, AllocError>
        requires { IsSized (val_of v.now) }
        ensures { Answers mine (val_of v.entry.now) result }
    { apply_map(alloc, &mine, v) };
    Ok(StoredMap::new(steps, Box::new(alloc, f)?))
}

/// The predicate that even numbers pass.
fn even(alloc: Global) -> Result<StoredPred, AllocError> {
    let mut conditions = PredOps::new(alloc);
    conditions.push(PredOp::Even)?;
    let own = conditions.try_clone()?;
    let p = move |v: &Value| -> bool
        requires { IsSized (val_of v.now) }
        ensures { result ≡ passes own (val_of v.entry.now) }
    { apply_pred(&own, v) };
    Ok(StoredPred::new(conditions, Box::new(alloc, p)?))
}

/// The lift that leaves numbers as they are.
fn itself(alloc: Global) -> Result<StoredLift, AllocError> {
    let l = |v: &Value| -> i64
        requires { IsSized (val_of v.now) }
        ensures { result ≡ lifted lift.Itself (val_of v.entry.now) }
    { apply_lift(&LiftOp::Itself, v) };
    Ok(StoredLift::new(LiftOp::Itself, Box::new(alloc, l)?))
}

/// The library of `abs`, `even` and `itself`.
pub fn library(alloc: Global) -> Result<Library, Wrong> {
    let mut lib = Library::new(alloc);
    lib.add_map("abs", abs(alloc)?)?;
    lib.add_pred("even", even(alloc)?)?;
    lib.add_lift("itself", itself(alloc)?)?;
    Ok(lib)
}
