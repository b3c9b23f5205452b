//! How values and tokens are hashed: number by number and text by text.

ghost use Rattle.std.specs.Prelude.{◌≡◌, fold};
ghost use Rattle.lasp_value.specs.Value.{val_of};
ghost use Rattle.lasp_value.specs.Token.{tok_of};
ghost use Rattle.lasp_logset.specs.Fed.{val_fed, tok_fed};

use lasp_value::{Token, Value};
use std::hash::{Hash, Hasher};

pub(crate) fn hash_value<H: Hasher>(value: &Value, state: &mut H)
    ensures { state.new ≡ fold H.write state.old (val_fed (val_of value.now)) }
{
    match value {
        Value::Int(n) => n.hash(state),
        Value::Text(text) => text.as_str().hash(state),
        Value::Pair(a, b) => {
            hash_value(a, state);
            hash_value(b, state);
        }
    }
}

pub(crate) fn hash_token<H: Hasher>(token: &Token, state: &mut H)
    ensures { state.new ≡ fold H.write state.old (tok_fed (tok_of token.now)) }
{
    match token {
        Token::Base(replica, k) => {
            replica.hash(state);
            k.hash(state);
        }
        Token::Both(a, b) => {
            hash_token(a, state);
            hash_token(b, state);
        }
    }
}
