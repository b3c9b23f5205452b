//! Numbers among the words.

ghost use Rattle.std.specs.Prelude.{◌≡◌, ◌<◌, ◌≤◌, IfSome};
ghost use Rattle.lasp_call.specs.Prelude.{spelled_in, number_in, node_word};

use itoa::Buffer;

/// The number, where it stands between the bounds, these among them, and the word is its spelling.
fn spelled_in(word: &str, least: u32, most: u32, number: u32) -> Option<u32>
    ensures { result ≡ spelled_in word.now least most number }
{
    let mut digits = Buffer::new();
    if least <= number && number <= most && word == digits.format(number) {
        Some(number)
    } else {
        None
    }
}

/// The number that a word spells in decimal digits without a leading zero, where it stands between the bounds, these among them. One past them, of any
/// length, is none.
#[tactic(auto, using(model_program::proofs::NumberLaws::numbers))]
pub fn number_in(word: &str, least: u32, most: u32) -> Option<u32>
    ensures exact { result ≡ number_in word.now least most }
    ensures high { IfSome result (λ number. number ≤ most) }
{
    match word.parse::<u32>() {
        Ok(number) => spelled_in(word, least, most, number),
        Err(_) => None,
    }
}

/// A node's number, 0 to 7.
pub fn node_word(word: &str) -> Option<u8>
    ensures exact { result ≡ node_word word.now }
    ensures few { IfSome result (λ node. node < 8) }
{
    match number_in(word, 0, 7) {
        Some(node) => Some(node as u8),
        None => None,
    }
}
