//! Texts without escapes.

ghost use Rattle.std.specs.Prelude.{◌≡◌, ℕ, ◌<◌, ◌≤◌, [], ◌∷◌, length, get_or, IfSome, true};
ghost use Rattle.json.specs.Lex.{between, lex, token};
ghost use Rattle.json.specs.Token.{string};
ghost use Rattle.json.specs.Run.{is_plain};
ghost use Rattle.lasp_spelling.specs.Spelling.{Begins};

use super::gap::after_gap;

/// The text that stands in front, which costs a look at each of its bytes.
#[inline(always)]
pub fn take_text(rest: &[u8]) -> Option<(&str, &[u8])>
    ensures { IfSome result (λ taken. Begins rest.now (token (string taken.0.now) ∷ []) taken.1.now) }
{
    let (first, inside) = after_gap(rest).split_first()?;
    if *first != b'"' {
        return None;
    }
    let (text, end) = inside.split_at(plain_len(inside));
    let (last, behind) = end.split_first()?;
    if *last != b'"' {
        return None;
    }
    match std::str::from_utf8(text) {
        Ok(text) => Some((text, behind)),
        Err(_) => None,
    }
}

/// How many bytes from the first on stand for themselves in a text.
#[inline(always)]
fn plain_len(bytes: &[u8]) -> usize
    ensures within { result ≤ length bytes.now }
    ensures plain { (i : ℕ) → i < result → is_plain (get_or bytes.now i 0) ≡ true }
{
    for i in 0..bytes.len() {
        if !is_plain(bytes[i]) {
            return i;
        }
    }
    bytes.len()
}

#[inline(always)]
fn is_plain(byte: u8) -> bool
    ensures { result ≡ is_plain byte }
{
    !(byte == b'"' || byte == b'\\' || byte < b' ')
}
