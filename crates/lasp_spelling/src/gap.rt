//! White space between the parts of a text.

ghost use Rattle.std.specs.Prelude.{◌≡◌};
ghost use Rattle.json.specs.Lex.{between, lex};
ghost use Rattle.json.specs.Word.{is_space};

/// The bytes behind the white space that they begin with.
#[inline(always)]
pub fn after_gap(rest: &[u8]) -> &[u8]
    ensures { lex between result.now ≡ lex between rest.now }
{
    for i in 0..rest.len() {
        if !is_space(rest[i]) {
            return &rest[i..];
        }
    }
    &rest[rest.len()..]
}

#[inline(always)]
pub(crate) fn is_space(byte: u8) -> bool
    ensures { result ≡ is_space byte }
{
    byte == b' ' || byte == b'\t' || byte == b'\n' || byte == b'\r'
}
