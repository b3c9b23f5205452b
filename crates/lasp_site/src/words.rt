//! The words of a site: GRAPH, NODE, STATE, SCRIPT and the names of 0 to 8 files.

ghost use Rattle.std.specs.Prelude.{◌≡◌, ◌<◌, IfSome, length};
ghost use Rattle.lasp_call.specs.Words.{words_of};
ghost use Rattle.model_site.specs.Program.{site_of};

use lasp_call::node_word;

/// The site's number, where the words are of the listed form. Then they name the graph, the state, the script and the files.
#[tactic(auto, unfolding(model_site::specs::Program::site_of))]
pub(crate) fn site_of(words: &[String]) -> Option<u8>
    ensures exact { result ≡ site_of (words_of words.now) }
    ensures many { IfSome result (λ node. 3 < length words.now) }
    ensures few { IfSome result (λ node. length words.now < 13) }
{
    if 3 < words.len() && words.len() < 13 {
        node_word(words[1].as_str())
    } else {
        None
    }
}
