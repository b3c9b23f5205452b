//! Values and tokens.

ghost use Rattle.std.specs.Prelude.{◌≡◌, ◌≤◌, ◌++◌, OnOk, length};
ghost use Rattle.lasp_wire.specs.Prelude.{text_bytes, number, spelled_value, spelled_token, val_of, tok_of};

use super::numbers::{put_i64, put_u8, put_u16, put_u64};
use lasp_value::{Text, Token, Value};
use std::alloc::AllocError;

/// A text with its length before it.
fn put_text(out: &mut Vec<u8>, text: &Text) -> Result<(), AllocError>
    requires { length text.now ≤ 256 }
    ensures { OnOk result (out.new.items ≡ out.old.items ++ (number 2 (length text.now) ++ text.now)) }
{
    put_u16(out, text.len() as u16)?;
    out.extend_from_slice(text.as_str().as_bytes())
}

pub fn put_value(out: &mut Vec<u8>, value: &Value) -> Result<(), AllocError>
    requires { text_bytes (val_of value.now) ≤ 256 }
    ensures { OnOk result (out.new.items ≡ out.old.items ++ spelled_value (val_of value.now)) }
{
    match value {
        Value::Int(n) => {
            out.push(0)?;
            put_i64(out, *n)
        }
        Value::Text(text) => {
            out.push(1)?;
            put_text(out, text)
        }
        Value::Pair(a, b) => {
            out.push(2)?;
            put_value(out, a)?;
            put_value(out, b)
        }
    }
}

pub fn put_token(out: &mut Vec<u8>, token: &Token) -> Result<(), AllocError>
    ensures { OnOk result (out.new.items ≡ out.old.items ++ spelled_token (tok_of token.now)) }
{
    match token {
        Token::Base(replica, k) => {
            put_u8(out, *replica)?;
            put_u64(out, *k)
        }
        Token::Both(a, b) => {
            put_token(out, a)?;
            put_token(out, b)
        }
    }
}
