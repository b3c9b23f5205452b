//! The forms of a command: what stands where, before any name is looked up.

ghost use Rattle.std.specs.Prelude.{◌≡◌, option_map, Some};
ghost use Rattle.serde_json.specs.View.{view, number_view};
ghost use Rattle.model_scripts.specs.Word.{of_size, target_of, word_of};
ghost use Rattle.model_scripts.specs.Check.{new_mark_in};
ghost use Rattle.model_scripts.specs.Script.{nodes_of};
ghost use Rattle.lasp_script.specs.Word.{target_view, bound_view, word_view, later_word, place_part, tree_parts, number_parts, new_mark_parts, mark_parts, bound_parts, delivery_parts, declared_part};

use super::bound::{Bound, bound_of};
use super::part::number_part;
use lasp_graph::{has_items, is_declaration, is_word_at, number_at, text_at};
use lasp_value::Name;
use serde_json::{Number, Value as Json};

/// How many nodes a script may have.
const NODE_LIMIT: u64 = 8;

/// The node and the variable that a command is about.
#[derive(Clone, Copy)]
pub(crate) struct Target<'a> {
    pub node: &'a Number,
    pub var: &'a str,
}

/// An update as it is written: what it brings.
#[derive(Clone, Copy)]
pub(crate) enum Update<'a> {
    Add(&'a Json),
    Remove(&'a Json),
    Insert(&'a Json),
    Inc(&'a Number),
    Max(&'a Number),
}

/// A command as it is written.
#[derive(Clone, Copy)]
pub(crate) enum Word<'a> {
    Update(Target<'a>, Update<'a>),
    Mark(Target<'a>, &'a str),
    Bind(Target<'a>, &'a str),
    Send(&'a Number),
    Deliver(&'a Number, &'a Number),
    Sync,
    Settle,
    Print(Target<'a>),
    Read(Target<'a>, Bound<'a>),
    Await(Target<'a>, Bound<'a>),
    Declare(&'a Json),
}

impl<'a> Word<'a> {
    /// The name of the mark that the command makes.
    pub fn new_mark(&self) -> Option<&'a str>
        ensures { option_map (λ s. s.now) result ≡ new_mark_in (word_view self.now) }
    {
        match self {
            Word::Mark(_, name) => Some(name),
            _ => None,
        }
    }
}

/// The number of nodes that the first command tells.
#[tactic(auto, unfolding(model_scripts::specs::Script::nodes_of))]
pub(crate) fn nodes_of(j: &Json) -> Option<u8>
    ensures { result ≡ nodes_of (view j.now) }
{
    if !(is_word_at(j, 0, "nodes") && has_items(j, 2)) {
        return None;
    }
    let n = number_at(j, 1)?.as_u64()?;
    if 1 <= n && n <= NODE_LIMIT {
        Some(n as u8)
    } else {
        None
    }
}

/// The command that a tree is the form of.
#[tactic(auto, using(crate::proofs::Forms::words), unfolding(crate::specs::Word::first_word))]
pub(crate) fn word_of(j: &Json) -> Option<Word<'_>>
    ensures { option_map word_view result ≡ word_of (view j.now) }
{
    if is_word_at(j, 0, "add") {
        let (target, value) = tree_parts(j)?;
        Some(Word::Update(target, Update::Add(value)))
    } else if is_word_at(j, 0, "remove") {
        let (target, value) = tree_parts(j)?;
        Some(Word::Update(target, Update::Remove(value)))
    } else if is_word_at(j, 0, "insert") {
        let (target, value) = tree_parts(j)?;
        Some(Word::Update(target, Update::Insert(value)))
    } else if is_word_at(j, 0, "inc") {
        let (target, count) = number_parts(j)?;
        Some(Word::Update(target, Update::Inc(count)))
    } else if is_word_at(j, 0, "max") {
        let (target, top) = number_parts(j)?;
        Some(Word::Update(target, Update::Max(top)))
    } else {
        later_word(j)
    }
}

/// The command that a tree is the form of, where it's no update.
#[tactic(auto, unfolding(crate::specs::Word::later_word))]
fn later_word(j: &Json) -> Option<Word<'_>>
    ensures { option_map word_view result ≡ later_word (view j.now) }
{
    if is_word_at(j, 0, "print") {
        place_part(j).map(Word::Print)
    } else if is_word_at(j, 0, "mark") {
        let (target, name) = new_mark_parts(j)?;
        Some(Word::Mark(target, name))
    } else if is_word_at(j, 0, "bind") {
        let (target, name) = mark_parts(j)?;
        Some(Word::Bind(target, name))
    } else if is_word_at(j, 0, "send") {
        number_part(j).map(Word::Send)
    } else if is_word_at(j, 0, "deliver") {
        let (node, message) = delivery_parts(j)?;
        Some(Word::Deliver(node, message))
    } else if is_word_at(j, 0, "sync") {
        lone(j, Word::Sync)
    } else if is_word_at(j, 0, "settle") {
        lone(j, Word::Settle)
    } else if is_word_at(j, 0, "read") {
        let (target, bound) = bound_parts(j)?;
        Some(Word::Read(target, bound))
    } else if is_word_at(j, 0, "await") {
        let (target, bound) = bound_parts(j)?;
        Some(Word::Await(target, bound))
    } else if is_word_at(j, 0, "declare") {
        declared_part(j).map(Word::Declare)
    } else {
        None
    }
}

/// The word, where nothing stands behind it.
fn lone<'a>(j: &Json, word: Word<'a>) -> Option<Word<'a>>
    ensures { option_map word_view result ≡ of_size 1 (view j.now) (Some (word_view word.entry)) }
{
    if has_items(j, 1) { Some(word) } else { None }
}

/// What stands behind a word that has a place alone.
#[tactic(auto, unfolding(crate::specs::Word::place_part))]
fn place_part(j: &Json) -> Option<Target<'_>>
    ensures { option_map target_view result ≡ place_part (view j.now) }
{
    if has_items(j, 3) { target_of(j) } else { None }
}

/// What stands behind a word that brings a value.
#[tactic(auto, unfolding(crate::specs::Word::tree_parts))]
fn tree_parts(j: &Json) -> Option<(Target<'_>, &Json)>
    ensures { option_map (λ p. (target_view p.0, view p.1.now)) result ≡ tree_parts (view j.now) }
{
    if !has_items(j, 4) {
        return None;
    }
    let target = target_of(j)?;
    let value = j.get(3usize)?;
    Some((target, value))
}

/// What stands behind a word that brings a number.
#[tactic(auto, unfolding(crate::specs::Word::number_parts))]
fn number_parts(j: &Json) -> Option<(Target<'_>, &Number)>
    ensures { option_map (λ p. (target_view p.0, number_view p.1.now)) result ≡ number_parts (view j.now) }
{
    if !has_items(j, 4) {
        return None;
    }
    let target = target_of(j)?;
    let number = number_at(j, 3)?;
    Some((target, number))
}

/// What stands behind a word that makes a mark, whose name has to have a name's shape.
#[tactic(auto, unfolding(crate::specs::Word::new_mark_parts))]
fn new_mark_parts(j: &Json) -> Option<(Target<'_>, &str)>
    ensures { option_map (λ p. (target_view p.0, p.1.now)) result ≡ new_mark_parts (view j.now) }
{
    if !has_items(j, 4) {
        return None;
    }
    let target = target_of(j)?;
    let name = text_at(j, 3)?;
    if Name::is_shape(name) {
        Some((target, name))
    } else {
        None
    }
}

/// What stands behind a word that names a mark.
#[tactic(auto, unfolding(crate::specs::Word::mark_parts))]
fn mark_parts(j: &Json) -> Option<(Target<'_>, &str)>
    ensures { option_map (λ p. (target_view p.0, p.1.now)) result ≡ mark_parts (view j.now) }
{
    if !has_items(j, 4) {
        return None;
    }
    let target = target_of(j)?;
    let name = text_at(j, 3)?;
    Some((target, name))
}

/// What stands behind a word that has a threshold.
#[tactic(auto, unfolding(crate::specs::Word::bound_parts))]
fn bound_parts(j: &Json) -> Option<(Target<'_>, Bound<'_>)>
    ensures { option_map (λ p. (target_view p.0, bound_view p.1)) result ≡ bound_parts (view j.now) }
{
    if !has_items(j, 4) {
        return None;
    }
    let target = target_of(j)?;
    let bound = bound_of(j.get(3usize)?)?;
    Some((target, bound))
}

/// The node and the message behind the word.
#[tactic(auto, unfolding(crate::specs::Word::delivery_parts))]
fn delivery_parts(j: &Json) -> Option<(&Number, &Number)>
    ensures { option_map (λ p. (number_view p.0.now, number_view p.1.now)) result ≡ delivery_parts (view j.now) }
{
    if !has_items(j, 3) {
        return None;
    }
    let node = number_at(j, 1)?;
    let message = number_at(j, 2)?;
    Some((node, message))
}

/// The tree behind the word, where it has the form of a declaration.
#[tactic(auto, unfolding(crate::specs::Word::declared_part))]
fn declared_part(j: &Json) -> Option<&Json>
    ensures { option_map (λ d. view d.now) result ≡ declared_part (view j.now) }
{
    if !has_items(j, 2) {
        return None;
    }
    let tree = j.get(1usize)?;
    if is_declaration(tree) {
        Some(tree)
    } else {
        None
    }
}

/// The node and the variable, which stand behind the word.
fn target_of(j: &Json) -> Option<Target<'_>>
    ensures { option_map target_view result ≡ target_of (view j.now) }
{
    let node = number_at(j, 1)?;
    let var = text_at(j, 2)?;
    Some(Target { node, var })
}
