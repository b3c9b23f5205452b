//! A key that several rows share: the same row stands in a table and in logs.

ghost use Rattle.std.specs.Prelude.{◌≡◌, IfOk};
ghost use Rattle.std.specs.Ordering.{eq_by_cmp};
ghost use Rattle.std.specs.Cmp.{partial_equiv_from_equiv};
ghost use Rattle.model_values.specs.Row.{key_cmp};
ghost use Rattle.model_values.specs.Size.{HasSmallInts};
ghost use Rattle.lasp_value.specs.Value.{val_of};
ghost use Rattle.lasp_value.specs.Token.{tok_of};
ghost use Rattle.lasp_logset.specs.Fed.{name_fed, fed_alike, key_equivalence};

use super::key::Key;
use lasp_value::{Token, Value};
use std::alloc::{AllocError, Global};
use std::cmp::Ordering;
use std::hash::{Hash, Hasher};
use std::marker::Model;
use std::sync::Arc;

#[derive(Drop)]
pub struct Name {
    key: Arc<Key>,
}

impl Model for Name {
    ghost use Rattle.std.specs.Arc.{arc_value};
    ghost use Rattle.model_values.specs.Row.{Key, coded_key};

    ghost Value = { Key };

    ghost coded = { coded_key };

    ghost view = { λ a. arc_value a.key };
}

impl Name {
    pub(crate) fn new(alloc: Global, value: Value, token: Token) -> Result<Name, AllocError>
        ensures { IfOk result (λ n. n ≡ (val_of value, tok_of token)) }
    {
        Ok(Name {
            key: Arc::new(alloc, Key::new(value, token))?,
        })
    }

    /// The same key. It takes no memory.
    pub(crate) fn share(&self) -> Result<Name, AllocError>
        ensures { IfOk result (λ n. n ≡ self.now) }
    {
        Ok(Name {
            key: Arc::try_clone(&self.key)?,
        })
    }

    pub(crate) fn value(&self) -> &Value
        ensures { val_of result.now ≡ self.now.0 }
    {
        self.key.value()
    }

    pub(crate) fn token(&self) -> &Token
        ensures { tok_of result.now ≡ self.now.1 }
    {
        self.key.token()
    }

    /// Recalls, at no cost, that each number in its value has at most 64 bits.
    pub(crate) fn recall_ints(&self)
        ensures { HasSmallInts self.now.0 }
    {
        self.key.recall_ints()
    }

    /// By value, then by token.
    pub(crate) fn compare(&self, other: &Name) -> Ordering
        ensures { result ≡ key_cmp self.now other.now }
    {
        self.key.compare(&other.key)
    }
}

impl PartialEq for Name {
    ghost eq = { eq_by_cmp key_cmp };

    ghost laws = { partial_equiv_from_equiv key_equivalence };

    fn eq(&self, other: &Name) -> bool {
        self.compare(other).is_eq()
    }
}

impl Eq for Name {
    ghost laws = { key_equivalence };
}

impl Hash for Name {
    ghost hash_input = { name_fed };

    ghost respects_eq = { fed_alike };

    fn hash<H: Hasher>(&self, state: &mut H) {
        self.key.hashed().hash(state);
    }
}
