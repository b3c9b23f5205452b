//! Values: whole numbers, texts and pairs, with their one order.

ghost use Rattle.std.specs.Prelude.{◌≡◌, ◌≤◌, ◌^◌, IfOk, FitsSigned, refl};
ghost use mir.Syntax.{w64};
ghost use Rattle.std.specs.Ordering.{eq_by_cmp, as_partial_cmp};
ghost use Rattle.std.specs.Cmp.{partial_equiv_from_equiv};
ghost use Rattle.model_values.specs.Size.{leaves, text_bytes, HasSmallInts};
ghost use Rattle.lasp_value.specs.Value.{val_of, value_cmp, value_total, value_equivalence, value_order};

use super::text::Text;
use std::alloc::{AllocError, Global};
use std::cmp::Ordering;

/// What sets hold. Numbers stand before texts, texts before pairs; numbers go by size, texts by their bytes, pairs by first, then second.
#[derive(Drop)]
pub enum Value {
    /// A whole number.
    Int(i64),
    /// A text.
    Text(Text),
    /// A pair of values.
    Pair(Box<Value>, Box<Value>),
}

impl Value {
    /// An equal value; two boxes a pair.
    pub fn try_clone(&self, alloc: Global) -> Result<Value, AllocError>
        ensures { IfOk result (λ v. val_of v ≡ val_of self.now) }
    {
        match self {
            Value::Int(n) => Ok(Value::Int(*n)),
            Value::Text(text) => Ok(Value::Text(text.try_clone()?)),
            Value::Pair(a, b) => {
                let first = a.try_clone(alloc)?;
                let second = b.try_clone(alloc)?;
                Ok(Value::Pair(Box::new(alloc, first)?, Box::new(alloc, second)?))
            }
        }
    }

    /// Recalls that each number in it has at most 64 bits. It walks through the value.
    pub fn recall_ints(&self)
        ensures { HasSmallInts (val_of self.now) }
    {
        match self {
            Value::Int(n) => recall_range(*n),
            Value::Text(_) => {}
            Value::Pair(a, b) => {
                a.recall_ints();
                b.recall_ints();
            }
        }
    }

    /// The number of numbers and texts in it.
    pub fn leaves(&self) -> u64
        requires { leaves (val_of self.now) ≤ 2 ^ 32 }
        ensures { result ≡ leaves (val_of self.now) }
    {
        match self {
            Value::Int(_) => 1,
            Value::Text(_) => 1,
            Value::Pair(a, b) => a.leaves() + b.leaves(),
        }
    }

    /// The number of bytes of all its texts.
    pub fn text_bytes(&self) -> u64
        requires { text_bytes (val_of self.now) ≤ 2 ^ 32 }
        ensures { result ≡ text_bytes (val_of self.now) }
    {
        match self {
            Value::Int(_) => 0,
            Value::Text(text) => text.len(),
            Value::Pair(a, b) => a.text_bytes() + b.text_bytes(),
        }
    }
}

/// Recalls, at no cost, that a number has at most 64 bits.
fn recall_range(n: i64)
    ensures { FitsSigned w64 n }
{}

impl PartialEq for Value {
    ghost eq = { eq_by_cmp value_cmp };

    ghost laws = { partial_equiv_from_equiv value_equivalence };

    fn eq(&self, other: &Value) -> bool {
        self.cmp(other).is_eq()
    }
}

impl Eq for Value {
    ghost laws = { value_equivalence };
}

impl Ord for Value {
    ghost cmp = { value_cmp };

    ghost total = { value_total };

    ghost matches_partial_cmp = { λ _ _. refl };

    ghost matches_eq = { λ _ _. refl };

    fn cmp(&self, other: &Value) -> Ordering {
        match (self, other) {
            (Value::Int(m), Value::Int(n)) => m.cmp(n),
            (Value::Int(_), Value::Text(_)) => Ordering::Less,
            (Value::Int(_), Value::Pair(_, _)) => Ordering::Less,
            (Value::Text(_), Value::Int(_)) => Ordering::Greater,
            (Value::Text(s), Value::Text(t)) => s.as_str().cmp(t.as_str()),
            (Value::Text(_), Value::Pair(_, _)) => Ordering::Less,
            (Value::Pair(_, _), Value::Int(_)) => Ordering::Greater,
            (Value::Pair(_, _), Value::Text(_)) => Ordering::Greater,
            (Value::Pair(a, b), Value::Pair(c, d)) => match a.as_ref().cmp(c) {
                Ordering::Equal => b.as_ref().cmp(d),
                unequal => unequal,
            },
        }
    }
}

impl PartialOrd for Value {
    ghost partial_cmp = { as_partial_cmp value_cmp };

    ghost laws = { value_order };

    fn partial_cmp(&self, other: &Value) -> Option<Ordering> {
        Some(self.cmp(other))
    }
}
