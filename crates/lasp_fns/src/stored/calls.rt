//! How stored functions are made and called.

ghost use Rattle.std.specs.Prelude.{◌≡◌};
ghost use Rattle.lasp_fns.specs.Prelude.{IsSized, passes, lifted, val_of, lift_op_of, Answers, ops_of, conditions_of, lift_of};

use super::{LiftFn, MapFn, PredFn, StoredLift, StoredMap, StoredPred};
use crate::lift::LiftOp;
use crate::map::MapOps;
use crate::predicate::PredOps;
use lasp_value::Value;
use std::alloc::AllocError;

impl StoredMap {
    /// Keeps a function with its operations.
    pub fn new(ops: MapOps, f: MapFn) -> StoredMap
        requires callable { (x : _) → IsSized (val_of x.now) → MapFn.pre f x }
        requires answers { (x : _) (r : _) → IsSized (val_of x.now) → MapFn.post f x r → Answers ops (val_of x.now) r }
        ensures { ops_of result ≡ ops }
    {
        StoredMap { ops, f }
    }

    /// The operations whose meaning the function has.
    pub fn ops(&self) -> &MapOps
        ensures { result.now ≡ ops_of self.now }
    {
        &self.ops
    }

    /// Calls the function.
    pub fn call(&self, v: &Value) -> Result<Value, AllocError>
        requires { IsSized (val_of v.now) }
        ensures { Answers (ops_of self.now) (val_of v.now) result }
    {
        (self.f)(v)
    }
}

impl StoredPred {
    /// Keeps a test with its conditions.
    pub fn new(ops: PredOps, f: PredFn) -> StoredPred
        requires callable { (x : _) → IsSized (val_of x.now) → PredFn.pre f x }
        requires answers { (x : _) (r : _) → IsSized (val_of x.now) → PredFn.post f x r → r ≡ passes ops (val_of x.now) }
        ensures { conditions_of result ≡ ops }
    {
        StoredPred { ops, f }
    }

    /// The conditions whose meaning the test has.
    pub fn ops(&self) -> &PredOps
        ensures { result.now ≡ conditions_of self.now }
    {
        &self.ops
    }

    /// Calls the test.
    pub fn call(&self, v: &Value) -> bool
        requires { IsSized (val_of v.now) }
        ensures { result ≡ passes (conditions_of self.now) (val_of v.now) }
    {
        (self.f)(v)
    }
}

impl StoredLift {
    /// Keeps a lift with its operation.
    pub fn new(op: LiftOp, f: LiftFn) -> StoredLift
        requires callable { (x : _) → IsSized (val_of x.now) → LiftFn.pre f x }
        requires answers { (x : _) (r : _) → IsSized (val_of x.now) → LiftFn.post f x r → r ≡ lifted (lift_op_of op) (val_of x.now) }
        ensures { lift_of result ≡ lift_op_of op }
    {
        StoredLift { op, f }
    }

    /// The operation whose meaning the lift has.
    pub fn op(&self) -> &LiftOp
        ensures { lift_op_of result.now ≡ lift_of self.now }
    {
        &self.op
    }

    /// Calls the lift.
    pub fn call(&self, v: &Value) -> i64
        requires { IsSized (val_of v.now) }
        ensures { result ≡ lifted (lift_of self.now) (val_of v.now) }
    {
        (self.f)(v)
    }
}
