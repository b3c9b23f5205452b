//! Brackets, commas, and the end.

ghost use Rattle.std.specs.Prelude.{◌≡◌, [], ◌∷◌, IfSome, true};
ghost use Rattle.json.specs.Lex.{between, lex, token, comma};
ghost use Rattle.json.specs.Token.{begin_array, end_array};
ghost use Rattle.lasp_spelling.specs.Spelling.{Begins};

use super::gap::after_gap;

/// The bytes behind the bracket that opens an array.
#[inline(always)]
#[tactic(auto, unfolding(json::specs::Lex::lex))]
pub fn after_open(rest: &[u8]) -> Option<&[u8]>
    ensures { IfSome result (λ behind. Begins rest.now (token begin_array ∷ []) behind.now) }
{
    after_sign(rest, b'[')
}

/// The bytes behind the bracket that closes an array.
#[inline(always)]
#[tactic(auto, unfolding(json::specs::Lex::lex))]
pub fn after_close(rest: &[u8]) -> Option<&[u8]>
    ensures { IfSome result (λ behind. Begins rest.now (token end_array ∷ []) behind.now) }
{
    after_sign(rest, b']')
}

/// The bytes behind a comma.
#[inline(always)]
#[tactic(auto, unfolding(json::specs::Lex::lex))]
pub fn after_comma(rest: &[u8]) -> Option<&[u8]>
    ensures { IfSome result (λ behind. Begins rest.now (comma ∷ []) behind.now) }
{
    after_sign(rest, b',')
}

/// Whether there is nothing left but white space.
#[inline(always)]
pub fn is_over(rest: &[u8]) -> bool
    ensures { result ≡ true → lex between rest.now ≡ [] }
{
    after_gap(rest).is_empty()
}

/// The bytes behind a sign, white space before it.
#[inline(always)]
fn after_sign(rest: &[u8], sign: u8) -> Option<&[u8]>
    ensures { IfSome result (λ behind. lex between rest.now ≡ lex between (sign ∷ behind.now)) }
{
    let (first, behind) = after_gap(rest).split_first()?;
    if *first == sign { Some(behind) } else { None }
}
