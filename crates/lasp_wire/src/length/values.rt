//! Values and tokens.

ghost use Rattle.std.specs.Prelude.{◌≡◌, ◌≤◌, ◌^◌, length};
ghost use Rattle.lasp_wire.specs.Prelude.{spelled_value, spelled_token, val_of, tok_of};

use lasp_value::{Token, Value};

pub fn value_len(value: &Value) -> u64
    requires { length (spelled_value (val_of value.now)) ≤ 2 ^ 32 }
    ensures { result ≡ length (spelled_value (val_of value.now)) }
{
    match value {
        Value::Int(_) => 9,
        Value::Text(text) => 3 + text.len(),
        Value::Pair(a, b) => 1 + value_len(a) + value_len(b),
    }
}

pub fn token_len(token: &Token) -> u64
    requires { length (spelled_token (tok_of token.now)) ≤ 2 ^ 32 }
    ensures { result ≡ length (spelled_token (tok_of token.now)) }
{
    match token {
        Token::Base(_, _) => 9,
        Token::Both(a, b) => token_len(a) + token_len(b),
    }
}
