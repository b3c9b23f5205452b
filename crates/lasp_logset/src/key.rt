//! What names a row: its value and its token.

ghost use Rattle.std.specs.Prelude.{◌≡◌};
ghost use Rattle.model_values.specs.Value.{val_cmp};
ghost use Rattle.model_values.specs.Token.{tok_cmp};
ghost use Rattle.model_values.specs.Row.{key_cmp};
ghost use Rattle.model_values.specs.Size.{HasSmallInts};
ghost use Rattle.lasp_value.specs.Value.{val_of};
ghost use Rattle.lasp_value.specs.Token.{tok_of};
ghost use Rattle.lasp_logset.specs.Fed.{key_hash};

use super::hash::{hash_token, hash_value};
use lasp_value::{Token, Value};
use std::cmp::Ordering;
use std::hash::{FoldHasher, Hasher};
use std::marker::Model;

#[derive(Drop)]
pub(crate) struct Key {
    value: Value,
    token: Token,
    /// What tables find it by, so that a look-up of a long value costs what one of a number does.
    hash: u64,
}

impl Model for Key {
    ghost use Rattle.std.specs.Prelude.{◌≡◌};
    ghost use Rattle.model_values.specs.Row.{Key, coded_key};
    ghost use Rattle.model_values.specs.Size.{HasSmallInts};
    ghost use Rattle.lasp_value.specs.Value.{val_of};
    ghost use Rattle.lasp_value.specs.Token.{tok_of};
    ghost use Rattle.lasp_logset.specs.Fed.{key_hash};

    ghost Value = { Key };

    ghost coded = { coded_key };

    ghost view = { λ a. (val_of a.value, tok_of a.token) };

    ghost invariant = { λ a. HasSmallInts (val_of a.value) × (a.hash ≡ key_hash (val_of a.value, tok_of a.token)) };
}

impl Key {
    pub(crate) fn new(value: Value, token: Token) -> Key
        ensures { result ≡ (val_of value, tok_of token) }
    {
        value.recall_ints();
        let hash = hash_of_key(&value, &token);
        Key { value, token, hash }
    }

    pub(crate) fn value(&self) -> &Value
        ensures { val_of result.now ≡ self.now.0 }
    {
        &self.value
    }

    pub(crate) fn token(&self) -> &Token
        ensures { tok_of result.now ≡ self.now.1 }
    {
        &self.token
    }

    /// The same for equal keys.
    pub(crate) fn hashed(&self) -> u64
        ensures { result ≡ key_hash self.now }
    {
        self.hash
    }

    /// Recalls, at no cost, that each number in its value has at most 64 bits.
    pub(crate) fn recall_ints(&self)
        ensures { HasSmallInts self.now.0 }
    {
        let _value = &self.value;
    }

    /// By value, then by token.
    pub(crate) fn compare(&self, other: &Key) -> Ordering
        ensures { result ≡ key_cmp self.now other.now }
    {
        match compare_values(&self.value, &other.value) {
            Ordering::Equal => compare_tokens(&self.token, &other.token),
            unequal => unequal,
        }
    }
}

fn hash_of_key(value: &Value, token: &Token) -> u64
    ensures { result ≡ key_hash (val_of value.now, tok_of token.now) }
{
    let mut state = FoldHasher::default();
    hash_value(value, &mut state);
    hash_token(token, &mut state);
    state.finish()
}

/// The order of values. Numbers are compared here, since the order of all values is a recursion, which is called at a cost.
pub(crate) fn compare_values(value: &Value, other: &Value) -> Ordering
    ensures { result ≡ val_cmp (val_of value.now) (val_of other.now) }
{
    match (value, other) {
        (Value::Int(m), Value::Int(n)) => m.cmp(n),
        (mine, theirs) => mine.cmp(theirs),
    }
}

/// The order of tokens, of base tokens here for the same reason.
fn compare_tokens(token: &Token, other: &Token) -> Ordering
    ensures { result ≡ tok_cmp (tok_of token.now) (tok_of other.now) }
{
    match (token, other) {
        (Token::Base(p, k), Token::Base(q, l)) => p.cmp(q).then(k.cmp(l)),
        (mine, theirs) => mine.cmp(theirs),
    }
}
