//! The text of values: compact JSON.

ghost use Rattle.std.specs.Prelude.{◌≡◌, ◌<◌, ◌/◌, ◌%◌, ◌++◌, ◌∷◌, [], IfOk, OnOk, string_bytes, flat_map};
ghost use Rattle.std.specs.Char.{encode_utf8};
ghost use Rattle.model_values.specs.Text.{shown, quoted, escaped, hex_digit};
ghost use Rattle.lasp_value.specs.Value.{val_of};

use super::text::Text;
use super::value::Value;
use std::alloc::{AllocError, Global};

/// The compact JSON text of a value.
pub fn print_value(alloc: Global, v: &Value) -> Result<Text, AllocError>
    ensures { IfOk result (λ t. t ≡ shown (val_of v.now)) }
{
    let mut out = String::new(alloc);
    print_into(&mut out, v)?;
    Ok(Text::from_string(out))
}

/// Appends the text of a value. After want of memory a part of it may have been appended.
pub fn print_into(out: &mut String, v: &Value) -> Result<(), AllocError>
    ensures { OnOk result (string_bytes out.new ≡ string_bytes out.old ++ shown (val_of v.now)) }
{
    match v {
        Value::Int(n) => write!(out, "{n}"),
        Value::Text(text) => print_text(out, text.as_str()),
        Value::Pair(a, b) => {
            out.push('[')?;
            print_into(out, a)?;
            out.push(',')?;
            print_into(out, b)?;
            out.push(']')
        }
    }
}

/// Appends a text between quotes.
fn print_text(out: &mut String, text: &str) -> Result<(), AllocError>
    ensures { OnOk result (string_bytes out.new ≡ string_bytes out.old ++ quoted text.now) }
{
    out.push('"')?;
    for c in text.chars() {
        print_char(out, c)?;
    }
    out.push('"')
}

#[tactic(auto, using(crate::proofs::Characters::characters))]
fn print_char(out: &mut String, c: char) -> Result<(), AllocError>
    ensures { OnOk result (string_bytes out.new ≡ string_bytes out.old ++ flat_map escaped (encode_utf8 c)) }
{
    if c < '\u{80}' {
        print_ascii(out, c)
    } else {
        out.push(c)
    }
}

#[tactic(auto, unfolding(model_values::specs::Text::escaped))]
fn print_ascii(out: &mut String, c: char) -> Result<(), AllocError>
    requires { c < 128 }
    ensures { OnOk result (string_bytes out.new ≡ string_bytes out.old ++ escaped c) }
{
    match c {
        '"' => out.push_str("\\\""),
        '\\' => out.push_str("\\\\"),
        '\u{8}' => out.push_str("\\b"),
        '\t' => out.push_str("\\t"),
        '\n' => out.push_str("\\n"),
        '\u{c}' => out.push_str("\\f"),
        '\r' => out.push_str("\\r"),
        c if c < ' ' => print_code(out, c),
        c => out.push(c),
    }
}

/// Appends a control character by its number.
fn print_code(out: &mut String, c: char) -> Result<(), AllocError>
    requires { c < 32 }
    ensures { OnOk result (string_bytes out.new ≡ string_bytes out.old ++ 92 ∷ 117 ∷ 48 ∷ 48 ∷ hex_digit (c / 16) ∷ hex_digit (c % 16) ∷ []) }
{
    let code = u32::from(c);
    out.push_str("\\u00")?;
    print_digit(out, code / 16)?;
    print_digit(out, code % 16)
}

/// Appends a lower hexadecimal digit.
fn print_digit(out: &mut String, n: u32) -> Result<(), AllocError>
    requires { n < 16 }
    ensures { OnOk result (string_bytes out.new ≡ string_bytes out.old ++ hex_digit n ∷ []) }
{
    match char::from_digit(n, 16) {
        Some(digit) => out.push(digit),
        None => Ok(()),
    }
}
