//! Functions of a program's own, each beside the operations whose meaning it has. That it has this meaning is shown where it is handed in, and kept by the type.

ghost use Rattle.std.specs.Prelude.{◌≡◌};
ghost use Rattle.std.specs.Coded.{Π_prop, →_prop};
ghost use Rattle.model_values.specs.Size.{IsSized};
ghost use Rattle.model_functions.specs.Predicate.{passes};
ghost use Rattle.model_functions.specs.Lift.{lifted};
ghost use Rattle.lasp_value.specs.Value.{val_of};
ghost use Rattle.lasp_fns.specs.Lift.{lift_op_of};
ghost use Rattle.lasp_fns.specs.Answers.{Answers, Answers-prop};

mod calls;

use super::lift::LiftOp;
use super::map::MapOps;
use super::predicate::PredOps;
use lasp_value::Value;
use std::alloc::AllocError;

/// A map function: it answers a value, or that no memory was found.
pub type MapFn = Box<dyn Fn(&Value) -> Result<Value, AllocError> + Send + Sync>;

/// A test of values.
pub type PredFn = Box<dyn Fn(&Value) -> bool + Send + Sync>;

/// A function that gives the number that a value brings to a fold.
pub type LiftFn = Box<dyn Fn(&Value) -> i64 + Send + Sync>;

/// A map function with its operations: on every value of at most 128 leaves and 4,096 bytes of text it answers what these make of the value.
#[derive(Drop)]
pub struct StoredMap {
    ops: MapOps,
    f: MapFn,
    ghost callable: { (x : _) → IsSized (val_of x.now) → MapFn.pre f x },
    ghost answers: { (x : _) (r : _) → IsSized (val_of x.now) → MapFn.post f x r → Answers ops (val_of x.now) r } by { Π_prop (λ x. Π_prop (λ r. →_prop (→_prop (Answers-prop ops (val_of x.now) r)))) },
}

/// A test with its conditions: on every value of at most 128 leaves and 4,096 bytes of text it answers whether the value meets them all.
#[derive(Drop)]
pub struct StoredPred {
    ops: PredOps,
    f: PredFn,
    ghost callable: { (x : _) → IsSized (val_of x.now) → PredFn.pre f x },
    ghost answers: { (x : _) (r : _) → IsSized (val_of x.now) → PredFn.post f x r → r ≡ passes ops (val_of x.now) },
}

/// A lift with its operation: on every value of at most 128 leaves and 4,096 bytes of text it answers the operation's number.
#[derive(Drop)]
pub struct StoredLift {
    op: LiftOp,
    f: LiftFn,
    ghost callable: { (x : _) → IsSized (val_of x.now) → LiftFn.pre f x },
    ghost answers: { (x : _) (r : _) → IsSized (val_of x.now) → LiftFn.post f x r → r ≡ lifted (lift_op_of op) (val_of x.now) },
}
