//! One live pair of a set as it is kept.

ghost use Rattle.std.specs.Prelude.{◌≡◌, false, IfOk};
ghost use Rattle.lasp_dots.specs.Prelude.{val_cmp, key_cmp, is_of, count_at, is_counted, val_of, tok_of};

use lasp_log::Share;
use lasp_value::{Token, Value};
use std::alloc::{AllocError, Global};
use std::cmp::Ordering;
use std::marker::Model;
use std::sync::Arc;

/// A value, and the token with which it was added, seen as a live row. Both stand behind a share, so that a set keeps one word for each and a copy of it takes no memory.
#[derive(Drop)]
pub(crate) struct Dot {
    shared: Arc<Pair>,
}

#[derive(Drop)]
struct Pair {
    value: Value,
    token: Token,
}

impl Model for Dot {
    ghost use Rattle.model_values.specs.Row.{Row, coded_row};
    ghost use Rattle.lasp_dots.specs.Kept.{row_of};

    ghost Value = { Row };

    ghost coded = { coded_row };

    ghost view = { λ a. row_of a.shared };
}

impl Dot {
    /// The pair of a value and a token.
    pub(crate) fn new(alloc: Global, value: Value, token: Token) -> Result<Dot, AllocError>
        ensures { IfOk result (λ d. d ≡ ((val_of value, tok_of token), false)) }
    {
        Ok(Dot {
            shared: Arc::new(alloc, Pair { value, token })?,
        })
    }

    /// The value that was added.
    pub(crate) fn value(&self) -> &Value
        ensures { val_of result.now ≡ self.now.0.0 }
    {
        &self.shared.value
    }

    /// The token of this addition.
    pub(crate) fn token(&self) -> &Token
        ensures { tok_of result.now ≡ self.now.0.1 }
    {
        &self.shared.token
    }

    /// Recalls, at no cost, that the pair is live.
    pub(crate) fn is_live(&self)
        ensures { self.now.1 ≡ false }
    {
        let _shared = &self.shared;
    }

    /// By value, then by token.
    pub(crate) fn compare(&self, other: &Dot) -> Ordering
        ensures { result ≡ key_cmp self.now.0 other.now.0 }
    {
        match self.value().cmp(other.value()) {
            Ordering::Equal => self.token().cmp(other.token()),
            unequal => unequal,
        }
    }

    /// By value alone.
    pub(crate) fn compare_value(&self, value: &Value) -> Ordering
        ensures { result ≡ val_cmp self.now.0.0 (val_of value.now) }
    {
        self.value().cmp(value)
    }

    /// Whether the pair is of a value.
    pub(crate) fn is_of(&self, value: &Value) -> bool
        ensures { result ≡ is_of (val_of value.now) self.now }
    {
        value.cmp(self.value()).is_eq()
    }

    /// Whether these counts count the update that the token is of.
    pub(crate) fn is_counted(&self, counts: &[u64]) -> bool
        ensures { result ≡ is_counted counts.now self.now.0.1 }
    {
        match self.token() {
            Token::Base(replica, k) => *k <= count_at(counts, *replica),
            Token::Both(_, _) => false,
        }
    }
}

impl Share for Dot {
    fn share(&self) -> Result<Dot, AllocError> {
        Ok(Dot {
            shared: Arc::try_clone(&self.shared)?,
        })
    }
}

/// How many updates of a replica are counted; none of one that has no count.
fn count_at(counts: &[u64], replica: u8) -> u64
    ensures { result ≡ count_at counts.now replica }
{
    match counts.get(usize::from(replica)) {
        Some(count) => *count,
        None => 0,
    }
}
