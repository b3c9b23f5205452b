//! One row as it is kept in a log.

ghost use Rattle.std.specs.Prelude.{◌≡◌, true, IfOk};
ghost use Rattle.model_values.specs.Size.{HasSmallInts};
ghost use Rattle.model_sets.specs.Rows.{is_of};
ghost use Rattle.lasp_value.specs.Value.{val_of};
ghost use Rattle.lasp_value.specs.Token.{tok_of};

use super::key::compare_values;
use super::name::Name;
use lasp_log::Share;
use lasp_value::{Token, Value};
use std::alloc::{AllocError, Global};
use std::marker::Model;

/// A row: a value, a token with which it was added, and whether that addition was removed.
#[derive(Drop)]
pub struct Entry {
    name: Name,
    dead: bool,
}

impl Model for Entry {
    ghost use Rattle.model_values.specs.Row.{Row, coded_row};

    ghost Value = { Row };

    ghost coded = { coded_row };

    ghost view = { λ a. (a.name, a.dead) };
}

impl Entry {
    /// The row of a value and a token.
    pub fn new(alloc: Global, value: Value, token: Token, dead: bool) -> Result<Entry, AllocError>
        ensures { IfOk result (λ r. r ≡ ((val_of value, tok_of token), dead)) }
    {
        Ok(Entry {
            name: Name::new(alloc, value, token)?,
            dead,
        })
    }

    /// The row of a key.
    pub(crate) fn of(name: Name, dead: bool) -> Entry
        ensures { result ≡ (name, dead) }
    {
        Entry { name, dead }
    }

    /// The same row. It takes no memory.
    pub fn try_clone(&self) -> Result<Entry, AllocError>
        ensures { IfOk result (λ r. r ≡ self.now) }
    {
        Ok(Entry {
            name: self.name.share()?,
            dead: self.dead,
        })
    }

    /// The same row, dead. It takes no memory.
    pub fn buried(&self) -> Result<Entry, AllocError>
        ensures { IfOk result (λ r. r ≡ (self.now.0, true)) }
    {
        Ok(Entry {
            name: self.name.share()?,
            dead: true,
        })
    }

    /// Recalls, at no cost, that each number in its value has at most 64 bits.
    pub(crate) fn recall_ints(&self)
        ensures { HasSmallInts self.now.0.0 }
    {
        self.name.recall_ints()
    }

    pub(crate) fn name(&self) -> &Name
        ensures { result.now ≡ self.now.0 }
    {
        &self.name
    }

    /// The value that was added.
    pub fn value(&self) -> &Value
        ensures { val_of result.now ≡ self.now.0.0 }
    {
        self.name.value()
    }

    /// The token of this addition.
    pub fn token(&self) -> &Token
        ensures { tok_of result.now ≡ self.now.0.1 }
    {
        self.name.token()
    }

    /// Whether the addition was removed.
    pub fn is_dead(&self) -> bool
        ensures { result ≡ self.now.1 }
    {
        self.dead
    }

    /// Whether the row is of a value.
    pub fn is_of(&self, value: &Value) -> bool
        ensures { result ≡ is_of (val_of value.now) self.now }
    {
        compare_values(value, self.value()).is_eq()
    }
}

impl Share for Entry {
    fn share(&self) -> Result<Entry, AllocError> {
        self.try_clone()
    }
}
