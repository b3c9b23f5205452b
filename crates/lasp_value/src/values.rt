//! A list of values.

ghost use Rattle.std.specs.Prelude.{◌≡◌, ◌<◌, ◌++◌, ◌∷◌, [], IfOk, OnOk, OnErr, length, slice_get, Some};
ghost use Rattle.lasp_value.specs.Value.{val_of};

use super::value::Value;
use std::alloc::{AllocError, Global};
use std::marker::Model;

/// A list of values, in the order in which they were pushed.
#[derive(Drop)]
pub struct Values {
    items: Vec<Value>,
}

impl Model for Values {
    ghost use Rattle.std.specs.Prelude.{List, map};
    ghost use Rattle.std.specs.Coded.{coded_list};
    ghost use Rattle.model_values.specs.Value.{Val, coded_val};
    ghost use Rattle.lasp_value.specs.Value.{val_of};

    ghost Value = { List Val };

    ghost coded = { coded_list coded_val };

    ghost view = { λ a. map val_of a.items.items };
}

impl Values {
    /// The empty list; it takes no memory yet.
    pub fn new(alloc: Global) -> Values
        ensures { result ≡ [] }
    {
        Values {
            items: Vec::new(alloc),
        }
    }

    /// Appends a value.
    pub fn push(&mut self, item: Value) -> Result<(), AllocError>
        ensures ok { OnOk result (self.new ≡ self.old ++ val_of item ∷ []) }
        ensures err { OnErr result (self.new ≡ self.old) }
    {
        self.items.push(item)?;
        Ok(())
    }

    /// The number of values.
    pub fn len(&self) -> u64
        ensures { result ≡ length self.now }
    {
        self.items.len() as u64
    }

    /// The value at a place, counted from 0.
    pub fn at(&self, i: u64) -> &Value
        requires { i < length self.now }
        ensures { slice_get self.now i ≡ Some (val_of result.now) }
    {
        &self.items[i as usize]
    }
}
