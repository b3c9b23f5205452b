//! Commands that begin with a word, a node and a variable, in usual spellings. What stands behind these is made a tree, and no more.

ghost use Rattle.std.specs.Prelude.{◌≡◌, [], ◌∷◌, IfSome, Some};
ghost use Rattle.serde_json.specs.View.{view, number_view};
ghost use Rattle.model_scripts.specs.Word.{word_of};
ghost use Rattle.lasp_spelling.specs.Spelling.{Spells};
ghost use Rattle.lasp_script.specs.Usual.{nesting_limit, placed, placed_view};
ghost use Rattle.lasp_script.specs.Word.{word_view};

use super::bound::bound_of;
use super::word::{Target, Update, Word};
use lasp_spelling::{after_close, after_comma, after_open, take_number, take_text, take_tree};
use lasp_value::Name;
use serde_json::{Number, Value as Json};
use std::alloc::Global;

/// How deep what stands behind the variable may nest.
const NESTING_LIMIT: u8 = 125;

/// A command as it is spelled.
#[derive(Drop)]
pub(crate) struct Placed<'a> {
    word: &'a str,
    node: Number,
    var: &'a str,
    last: Option<Json>,
}

impl<'a> Placed<'a> {
    /// The command that it is the form of.
    pub fn as_word(&self) -> Option<Word<'_>>
        ensures { IfSome result (λ w. word_of (placed_view self.now) ≡ Some (word_view w)) }
    {
        match &self.last {
            Some(last) => word_with(self.word, &self.node, self.var, last),
            None => word_alone(self.word, &self.node, self.var),
        }
    }
}

/// The command that stands in front.
pub(crate) fn take_placed(alloc: Global, bytes: &[u8]) -> Option<(Placed<'_>, &[u8])>
    ensures { IfSome result (λ taken. Spells nesting_limit bytes.now (placed_view taken.0) taken.1.now) }
{
    let inside = after_open(bytes)?;
    let (word, behind_word) = take_text(inside)?;
    let at_node = after_comma(behind_word)?;
    let (node, behind_node) = take_number(at_node)?;
    let at_var = after_comma(behind_node)?;
    let (var, behind_var) = take_text(at_var)?;
    if let Some(end) = after_close(behind_var) {
        let last = None;
        return Some((
            Placed {
                word,
                node,
                var,
                last,
            },
            end,
        ));
    }
    let at_last = after_comma(behind_var)?;
    let (last, behind_last) = take_tree(alloc, at_last, NESTING_LIMIT)?;
    let end = after_close(behind_last)?;
    let last = Some(last);
    Some((
        Placed {
            word,
            node,
            var,
            last,
        },
        end,
    ))
}

/// The command of a word with a node and a variable alone.
#[tactic(auto, using(crate::proofs::UsualWords::words))]
fn word_alone<'a>(word: &str, node: &'a Number, var: &'a str) -> Option<Word<'a>>
    ensures { IfSome result (λ w. word_of (placed word.now (number_view node.now) var.now []) ≡ Some (word_view w)) }
{
    if word == "print" {
        Some(Word::Print(Target { node, var }))
    } else {
        None
    }
}

/// The command of a word with a node, a variable and one part more.
#[tactic(auto, using(crate::proofs::UsualWords::words))]
fn word_with<'a>(word: &str, node: &'a Number, var: &'a str, last: &'a Json) -> Option<Word<'a>>
    ensures { IfSome result (λ w. word_of (placed word.now (number_view node.now) var.now (view last.now ∷ [])) ≡ Some (word_view w)) }
{
    let target = Target { node, var };
    if word == "add" {
        Some(Word::Update(target, Update::Add(last)))
    } else if word == "remove" {
        Some(Word::Update(target, Update::Remove(last)))
    } else if word == "insert" {
        Some(Word::Update(target, Update::Insert(last)))
    } else if word == "inc" {
        let count = last.as_number()?;
        Some(Word::Update(target, Update::Inc(count)))
    } else if word == "max" {
        let top = last.as_number()?;
        Some(Word::Update(target, Update::Max(top)))
    } else {
        marked_word(word, node, var, last)
    }
}

/// The command of a word with a node, a variable, and a mark or a threshold.
#[tactic(auto, using(crate::proofs::UsualWords::words))]
fn marked_word<'a>(word: &str, node: &'a Number, var: &'a str, last: &'a Json) -> Option<Word<'a>>
    ensures { IfSome result (λ w. word_of (placed word.now (number_view node.now) var.now (view last.now ∷ [])) ≡ Some (word_view w)) }
{
    let target = Target { node, var };
    if word == "await" {
        let bound = bound_of(last)?;
        Some(Word::Await(target, bound))
    } else if word == "read" {
        let bound = bound_of(last)?;
        Some(Word::Read(target, bound))
    } else if word == "bind" {
        let name = last.as_str()?;
        Some(Word::Bind(target, name))
    } else if word == "mark" {
        let name = last.as_str()?;
        if Name::is_shape(name) {
            Some(Word::Mark(target, name))
        } else {
            None
        }
    } else {
        None
    }
}
