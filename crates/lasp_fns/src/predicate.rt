//! The operations of a predicate, and what passes them.

ghost use Rattle.std.specs.Prelude.{◌≡◌, ◌↔◌, ◌<◌, ◌++◌, ◌∷◌, [], IfOk, IsTrue, OnOk, OnErr, length, slice_get, Some, map};
ghost use Rattle.lasp_fns.specs.Prelude.{IsSized, passes, passes_once, passes_number, passes_text, passes_pair, begins_with, val_of, pred_op_of};

use lasp_value::{Text, Value};
use std::alloc::{AllocError, Global};
use std::marker::Model;

/// One condition of a predicate. A value of another shape doesn't meet it.
#[derive(Drop)]
pub enum PredOp {
    /// A number that two divides.
    Even,
    /// A number greater than this one.
    Above(i64),
    /// A number less than this one.
    Below(i64),
    /// A text.
    IsText,
    /// A text whose bytes begin with those of this one.
    StartsWith(Text),
    /// A pair whose first part is itself a pair that begins with the second part.
    KeyMatch,
    /// A pair of two equal values.
    Same,
}

impl PredOp {
    /// The same condition; one copy of its text, where it has one.
    pub fn try_clone(&self) -> Result<PredOp, AllocError>
        ensures { IfOk result (λ op. pred_op_of op ≡ pred_op_of self.now) }
    {
        match self {
            PredOp::Even => Ok(PredOp::Even),
            PredOp::Above(k) => Ok(PredOp::Above(*k)),
            PredOp::Below(k) => Ok(PredOp::Below(*k)),
            PredOp::IsText => Ok(PredOp::IsText),
            PredOp::StartsWith(text) => Ok(PredOp::StartsWith(text.try_clone()?)),
            PredOp::KeyMatch => Ok(PredOp::KeyMatch),
            PredOp::Same => Ok(PredOp::Same),
        }
    }

    /// Whether it is the same condition, with the same bound or text.
    pub fn is_same(&self, other: &PredOp) -> bool
        ensures { IsTrue result ↔ (pred_op_of self.now ≡ pred_op_of other.now) }
    {
        match (self, other) {
            (PredOp::Even, PredOp::Even) => true,
            (PredOp::Above(k), PredOp::Above(l)) => k == l,
            (PredOp::Below(k), PredOp::Below(l)) => k == l,
            (PredOp::IsText, PredOp::IsText) => true,
            (PredOp::StartsWith(s), PredOp::StartsWith(t)) => s.as_str() == t.as_str(),
            (PredOp::KeyMatch, PredOp::KeyMatch) => true,
            (PredOp::Same, PredOp::Same) => true,
            (_, _) => false,
        }
    }
}

/// The conditions of a predicate, all of which a value has to meet. They are seen as plain data.
#[derive(Drop)]
pub struct PredOps {
    items: Vec<PredOp>,
}

impl Model for PredOps {
    ghost use Rattle.std.specs.Prelude.{List, map};
    ghost use Rattle.model_functions.specs.Predicate.{PredOp};
    ghost use Rattle.model_functions.specs.Coded.{coded_pred_ops};
    ghost use Rattle.lasp_fns.specs.Predicate.{pred_op_of};

    ghost Value = { List PredOp };

    ghost coded = { coded_pred_ops };

    ghost view = { λ a. map pred_op_of a.items.items };
}

impl PredOps {
    /// No conditions, so that each value passes. It takes no memory yet.
    pub fn new(alloc: Global) -> PredOps
        ensures { result ≡ [] }
    {
        PredOps {
            items: Vec::new(alloc),
        }
    }

    /// Appends a condition.
    pub fn push(&mut self, item: PredOp) -> Result<(), AllocError>
        ensures ok { OnOk result (self.new ≡ self.old ++ pred_op_of item ∷ []) }
        ensures err { OnErr result (self.new ≡ self.old) }
    {
        self.items.push(item)?;
        Ok(())
    }

    /// The number of conditions.
    pub fn len(&self) -> u64
        ensures { result ≡ length self.now }
    {
        self.items.len() as u64
    }

    /// The condition at a place, counted from 0.
    pub fn at(&self, i: u64) -> &PredOp
        requires { i < length self.now }
        ensures { slice_get self.now i ≡ Some (pred_op_of result.now) }
    {
        &self.items[i as usize]
    }

    /// The same conditions.
    pub fn try_clone(&self) -> Result<PredOps, AllocError>
        ensures { IfOk result (λ ops. ops ≡ self.now) }
    {
        let mut items = Vec::with_capacity(*self.items.allocator(), self.items.len())?;
        for item in &self.items {
            items.push(item.try_clone()?)?;
        }
        Ok(PredOps { items })
    }

    /// Whether the conditions are the same, one by one.
    pub fn is_same(&self, other: &PredOps) -> bool
        ensures { IsTrue result ↔ (self.now ≡ other.now) }
    {
        are_same(&self.items, &other.items)
    }

    fn as_slice(&self) -> &[PredOp]
        ensures { map pred_op_of result.now ≡ self.now }
    {
        self.items.as_slice()
    }
}

fn are_same(conditions: &[PredOp], others: &[PredOp]) -> bool
    ensures { IsTrue result ↔ (map pred_op_of conditions.now ≡ map pred_op_of others.now) }
{
    let mut rest = others;
    for condition in conditions {
        match rest.split_first() {
            Some((other, behind)) if condition.is_same(other) => rest = behind,
            _ => return false,
        }
    }
    rest.is_empty()
}

/// Whether a value meets all conditions. It takes no memory.
#[tactic(auto, unfolding(model_functions::specs::Predicate::passes))]
pub fn apply_pred(ops: &PredOps, v: &Value) -> bool
    requires { IsSized (val_of v.now) }
    ensures { result ≡ passes ops.now (val_of v.now) }
{
    for op in ops.as_slice() {
        if !meets(op, v) {
            return false;
        }
    }
    true
}

fn meets(op: &PredOp, v: &Value) -> bool
    ensures { result ≡ passes_once (pred_op_of op.now) (val_of v.now) }
{
    match v {
        Value::Int(n) => number_meets(op, *n),
        Value::Text(text) => text_meets(op, text),
        Value::Pair(first, second) => pair_meets(op, first, second),
    }
}

fn number_meets(op: &PredOp, n: i64) -> bool
    ensures { result ≡ passes_number (pred_op_of op.now) n }
{
    match op {
        PredOp::Even => n.unsigned_abs() % 2 == 0,
        PredOp::Above(k) => n > *k,
        PredOp::Below(k) => n < *k,
        _ => false,
    }
}

fn text_meets(op: &PredOp, text: &Text) -> bool
    ensures { result ≡ passes_text (pred_op_of op.now) text.now }
{
    match op {
        PredOp::IsText => true,
        PredOp::StartsWith(start) => text
            .as_str()
            .as_bytes()
            .starts_with(start.as_str().as_bytes()),
        _ => false,
    }
}

fn pair_meets(op: &PredOp, first: &Value, second: &Value) -> bool
    ensures { result ≡ passes_pair (pred_op_of op.now) (val_of first.now) (val_of second.now) }
{
    match op {
        PredOp::KeyMatch => is_key(second, first),
        PredOp::Same => *first == *second,
        _ => false,
    }
}

/// Whether the value is a pair that begins with the key.
fn is_key(key: &Value, value: &Value) -> bool
    ensures { result ≡ begins_with (val_of key.now) (val_of value.now) }
{
    match value {
        Value::Pair(first, _) => *key == **first,
        _ => false,
    }
}
