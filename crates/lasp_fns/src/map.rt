//! The operations of a map function, and what they make of a value.

ghost use Rattle.std.specs.Prelude.{◌≡◌, ◌↔◌, ◌<◌, ◌≤◌, ◌++◌, ◌∷◌, [], IfOk, IsTrue, OnOk, OnErr, length, slice_get, Some, map};
ghost use Rattle.lasp_fns.specs.Prelude.{int, IsSized, mapped, mapped_once, mapped_number, mapped_text, mapped_pair, val_of, map_op_of};

use lasp_value::{Text, Value};
use std::alloc::{AllocError, Global};
use std::marker::Model;

/// One step of a map function. A step that isn't made for a value leaves the value as it is, and none goes into the parts of a pair.
/// Numbers are held between the least and the greatest of 64 bits.
#[derive(Clone, Copy, PartialEq, Eq)]
pub enum MapOp {
    /// Adds this number to a number.
    Add(i64),
    /// Multiplies a number by this number.
    Times(i64),
    /// Turns a number's sign.
    Neg,
    /// Drops a number's sign.
    Abs,
    /// Takes the first part of a pair.
    First,
    /// Takes the second part of a pair.
    Second,
    /// Turns a pair round.
    Swap,
    /// Takes the number of bytes of a text.
    Length,
    /// Makes the letters `A` to `Z` of a text small.
    Lower,
}

/// The steps of a map function, the first one first. They are seen as plain data.
#[derive(Drop)]
pub struct MapOps {
    items: Vec<MapOp>,
}

impl Model for MapOps {
    ghost use Rattle.std.specs.Prelude.{List, map};
    ghost use Rattle.model_functions.specs.Map.{MapOp};
    ghost use Rattle.model_functions.specs.Coded.{coded_map_ops};
    ghost use Rattle.lasp_fns.specs.Map.{map_op_of};

    ghost Value = { List MapOp };

    ghost coded = { coded_map_ops };

    ghost view = { λ a. map map_op_of a.items.items };
}

impl MapOps {
    /// No steps, so that each value stays as it is. It takes no memory yet.
    pub fn new(alloc: Global) -> MapOps
        ensures { result ≡ [] }
    {
        MapOps {
            items: Vec::new(alloc),
        }
    }

    /// Appends a step.
    pub fn push(&mut self, item: MapOp) -> Result<(), AllocError>
        ensures ok { OnOk result (self.new ≡ self.old ++ map_op_of item ∷ []) }
        ensures err { OnErr result (self.new ≡ self.old) }
    {
        self.items.push(item)?;
        Ok(())
    }

    /// The number of steps.
    pub fn len(&self) -> u64
        ensures { result ≡ length self.now }
    {
        self.items.len() as u64
    }

    /// The step at a place, counted from 0.
    pub fn at(&self, i: u64) -> &MapOp
        requires { i < length self.now }
        ensures { slice_get self.now i ≡ Some (map_op_of result.now) }
    {
        &self.items[i as usize]
    }

    /// The same steps.
    pub fn try_clone(&self) -> Result<MapOps, AllocError>
        ensures { IfOk result (λ ops. ops ≡ self.now) }
    {
        Ok(MapOps {
            items: self.items.clone()?,
        })
    }

    /// Whether the steps are the same, one by one.
    pub fn is_same(&self, other: &MapOps) -> bool
        ensures { IsTrue result ↔ (self.now ≡ other.now) }
    {
        are_same(&self.items, &other.items)
    }

    fn as_slice(&self) -> &[MapOp]
        ensures { map map_op_of result.now ≡ self.now }
    {
        self.items.as_slice()
    }
}

fn are_same(steps: &[MapOp], others: &[MapOp]) -> bool
    ensures { IsTrue result ↔ (map map_op_of steps.now ≡ map map_op_of others.now) }
{
    let mut rest = others;
    for step in steps {
        match rest.split_first() {
            Some((other, behind)) if is_same_step(*step, *other) => rest = behind,
            _ => return false,
        }
    }
    rest.is_empty()
}

fn is_same_step(step: MapOp, other: MapOp) -> bool
    ensures { IsTrue result ↔ (map_op_of step ≡ map_op_of other) }
{
    step == other
}

/// The value after all steps. Parts of pairs that the first steps take are found without a copy.
#[tactic(auto, unfolding(model_functions::specs::Map::mapped), using(crate::proofs::SizeLaws::sizes))]
pub fn apply_map(alloc: Global, ops: &MapOps, v: &Value) -> Result<Value, AllocError>
    requires { IsSized (val_of v.now) }
    ensures { IfOk result (λ w. val_of w ≡ mapped ops.now (val_of v.now)) }
{
    let (rest, part) = reached(ops.as_slice(), v);
    let mut value = part.try_clone(alloc)?;
    for op in rest {
        value = apply_once(alloc, *op, value)?;
    }
    Ok(value)
}

/// The part that the leading steps take of pairs, and the steps that are left.
#[tactic(auto, unfolding(model_functions::specs::Map::mapped), using(crate::proofs::SizeLaws::sizes))]
fn reached<'a>(ops: &'a [MapOp], v: &'a Value) -> (&'a [MapOp], &'a Value)
    requires { IsSized (val_of v.now) }
    ensures same { mapped (map map_op_of result.0.now) (val_of result.1.now) ≡ mapped (map map_op_of ops.now) (val_of v.now) }
    ensures sized { IsSized (val_of result.1.now) }
{
    let mut rest = ops;
    let mut part = v;
    while let Some((op, behind)) = rest.split_first() {
        match (op, part) {
            (MapOp::First, Value::Pair(first, _)) => part = first,
            (MapOp::Second, Value::Pair(_, second)) => part = second,
            (_, _) => return (rest, part),
        }
        rest = behind;
    }
    (rest, part)
}

fn apply_once(alloc: Global, op: MapOp, value: Value) -> Result<Value, AllocError>
    requires { IsSized (val_of value) }
    ensures { IfOk result (λ w. val_of w ≡ mapped_once (map_op_of op) (val_of value)) }
{
    match value {
        Value::Int(n) => Ok(Value::Int(apply_to_number(op, n))),
        Value::Text(text) => apply_to_text(alloc, op, text),
        Value::Pair(first, second) => Ok(apply_to_pair(op, first, second)),
    }
}

fn apply_to_number(op: MapOp, n: i64) -> i64
    ensures { int result ≡ mapped_number (map_op_of op) n }
{
    match op {
        MapOp::Add(k) => n.saturating_add(k),
        MapOp::Times(k) => n.saturating_mul(k),
        MapOp::Neg => n.saturating_neg(),
        MapOp::Abs => n.saturating_abs(),
        _ => n,
    }
}

fn apply_to_text(alloc: Global, op: MapOp, text: Text) -> Result<Value, AllocError>
    requires { length text ≤ 4096 }
    ensures { IfOk result (λ w. val_of w ≡ mapped_text (map_op_of op) text) }
{
    match op {
        MapOp::Length => Ok(Value::Int(text.len() as i64)),
        MapOp::Lower => {
            let small = text.as_str().to_ascii_lowercase(alloc)?;
            Ok(Value::Text(Text::from_string(small)))
        }
        _ => Ok(Value::Text(text)),
    }
}

fn apply_to_pair(op: MapOp, first: Box<Value>, second: Box<Value>) -> Value
    ensures { val_of result ≡ mapped_pair (map_op_of op) (val_of first.value) (val_of second.value) }
{
    match op {
        MapOp::First => Box::into_inner(first),
        MapOp::Second => Box::into_inner(second),
        MapOp::Swap => Value::Pair(second, first),
        _ => Value::Pair(first, second),
    }
}
