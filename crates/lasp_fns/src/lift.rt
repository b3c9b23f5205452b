//! The operation of a lift: the number that a value brings to a fold.

ghost use Rattle.std.specs.Prelude.{◌≡◌, ◌↔◌, ◌≤◌, IsTrue, length, pos};
ghost use Rattle.lasp_fns.specs.Prelude.{IsSized, lifted, number_of, length_of, first_of, val_of, lift_op_of};

use lasp_value::Value;

/// The number that a value brings to a fold.
#[derive(Clone, Copy, PartialEq, Eq)]
pub enum LiftOp {
    /// 1 of every value.
    One,
    /// A number itself, else 0.
    Itself,
    /// The number of bytes of a text, else 0.
    Length,
    /// The first part of a pair where that is a number, else 0.
    First,
}

impl LiftOp {
    /// Whether it is the same operation.
    pub fn is_same(&self, other: &LiftOp) -> bool
        ensures { IsTrue result ↔ (lift_op_of self.now ≡ lift_op_of other.now) }
    {
        self == other
    }
}

/// The number that a value brings. It takes no memory.
pub fn apply_lift(op: &LiftOp, v: &Value) -> i64
    requires { IsSized (val_of v.now) }
    ensures { result ≡ lifted (lift_op_of op.now) (val_of v.now) }
{
    match op {
        LiftOp::One => 1,
        LiftOp::Itself => number_of(v),
        LiftOp::Length => length_of(v),
        LiftOp::First => first_of(v),
    }
}

fn number_of(v: &Value) -> i64
    ensures { result ≡ number_of (val_of v.now) }
{
    match v {
        Value::Int(n) => *n,
        _ => 0,
    }
}

fn length_of(v: &Value) -> i64
    requires { IsSized (val_of v.now) }
    ensures { result ≡ length_of (val_of v.now) }
{
    match v {
        Value::Text(text) => text.len() as i64,
        _ => 0,
    }
}

fn first_of(v: &Value) -> i64
    ensures { result ≡ first_of (val_of v.now) }
{
    match v {
        Value::Pair(first, _) => number_of(first),
        _ => 0,
    }
}
