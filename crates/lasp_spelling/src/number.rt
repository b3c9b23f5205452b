//! Integers in decimal.

ghost use Rattle.std.specs.Prelude.{◌≡◌, ◌^◌, ◌<◌, ◌≤◌, [], ◌∷◌, ◌++◌, take, length, get_or, decimal, IfSome, true, pos, neg_ℤ};
ghost use Rattle.std.specs.Int.{IsInRange};
ghost use Rattle.std.specs.Str.Parse.{AllDigits, digits_value};
ghost use Rattle.json.specs.Word.{ends_word};
ghost use Rattle.serde_json.specs.Data.{unsigned, negative};
ghost use Rattle.serde_json.specs.View.{number_view};
ghost use Rattle.lasp_spelling.specs.Spelling.{Begins, number_lexeme, IsWritten};

use super::gap::{after_gap, is_space};
use serde_json::Number;

/// Below it a number has room for a digit more.
const LIMIT: u64 = 100_000_000_000_000_000;

/// The integer that stands in front, of 18 digits at most.
#[inline(always)]
pub fn take_number(rest: &[u8]) -> Option<(Number, &[u8])>
    ensures lexeme { IfSome result (λ taken. Begins rest.now (number_lexeme (number_view taken.0) ∷ []) taken.1.now) }
    ensures written { IfSome result (λ taken. IsWritten (number_view taken.0)) }
{
    let rest = after_gap(rest);
    let (first, behind) = rest.split_first()?;
    if *first == b'-' {
        take_below_zero(rest, behind)
    } else {
        take_whole(rest)
    }
}

/// The number without a sign that stands in front.
#[inline(always)]
fn take_whole(rest: &[u8]) -> Option<(Number, &[u8])>
    ensures lexeme { IfSome result (λ taken. Begins rest.now (number_lexeme (number_view taken.0) ∷ []) taken.1.now) }
    ensures written { IfSome result (λ taken. IsWritten (number_view taken.0)) }
{
    let (n, behind) = take_decimal(rest)?;
    Some((Number::from(n), behind))
}

/// The number that stands in front, whose digits come behind its sign.
#[inline(always)]
fn take_below_zero<'a>(rest: &'a [u8], digits: &'a [u8]) -> Option<(Number, &'a [u8])>
    requires { rest.now ≡ 45 ∷ digits.now }
    ensures lexeme { IfSome result (λ taken. Begins rest.now (number_lexeme (number_view taken.0) ∷ []) taken.1.now) }
    ensures written { IfSome result (λ taken. IsWritten (number_view taken.0)) }
{
    let (n, behind) = take_decimal(digits)?;
    if n == 0 {
        return None;
    }
    Some((Number::from(below_zero(n)), behind))
}

#[inline(always)]
fn below_zero(n: u64) -> i64
    requires { n < 2 ^ 63 }
    ensures { result ≡ neg_ℤ (pos n) }
{
    -(n as i64)
}

/// The number that the digits in front tell, where a word ends behind them.
#[inline(always)]
fn take_decimal(rest: &[u8]) -> Option<(u64, &[u8])>
    ensures digits { IfSome result (λ taken. rest.now ≡ decimal taken.0 ++ taken.1.now) }
    ensures small { IfSome result (λ taken. taken.0 < 2 ^ 63) }
    ensures ended { IfSome result (λ taken. ends_word taken.1.now ≡ true) }
{
    let (n, len) = value_of_digits(rest)?;
    let (digits, behind) = rest.split_at(len);
    if is_shortest(digits) && ends_word(behind) {
        Some((n, behind))
    } else {
        None
    }
}

/// Whether there are digits, and no zero stands before others.
#[inline(always)]
fn is_shortest(digits: &[u8]) -> bool
    ensures some { result ≡ true → 0 < length digits.now }
    ensures lead { result ≡ true → get_or digits.now 0 0 ≡ 48 → length digits.now ≡ 1 }
{
    digits.len() == 1 || (digits.len() > 1 && digits[0] != b'0')
}

/// What the digits in front tell, and how many they are.
#[inline(always)]
fn value_of_digits(bytes: &[u8]) -> Option<(u64, usize)>
    ensures within { IfSome result (λ found. found.1 ≤ length bytes.now) }
    ensures digits { IfSome result (λ found. AllDigits 10 (take found.1 bytes.now)) }
    ensures value { IfSome result (λ found. found.0 ≡ digits_value 10 (take found.1 bytes.now)) }
    ensures small { IfSome result (λ found. found.0 < 2 ^ 63) }
{
    let mut n: u64 = 0;
    for i in 0..bytes.len() {
        let byte = bytes[i];
        if !is_digit(byte) {
            return Some((n, i));
        }
        if n >= LIMIT {
            return None;
        }
        n = n * 10 + u64::from(byte - b'0');
    }
    None
}

#[inline(always)]
fn is_digit(byte: u8) -> bool
    ensures { result ≡ true → IsInRange 48 57 byte }
{
    b'0' <= byte && byte <= b'9'
}

/// Whether a word ends here, as before a comma.
#[inline(always)]
fn ends_word(rest: &[u8]) -> bool
    ensures { result ≡ true → ends_word rest.now ≡ true }
{
    match rest.first() {
        Some(&byte) => byte == b',' || byte == b']' || is_space(byte),
        None => false,
    }
}
