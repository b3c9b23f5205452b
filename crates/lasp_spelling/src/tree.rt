//! Trees of texts, integers and arrays.

ghost use Rattle.std.specs.Prelude.{◌≡◌, ◌+◌, [], ◌∷◌, ◌++◌, map, IfSome};
ghost use Rattle.serde_json.specs.View.{view};
ghost use Rattle.lasp_spelling.specs.Spelling.{Spells, Opens};

use super::gap::after_gap;
use super::number::take_number;
use super::sign::{after_close, after_comma, after_open};
use super::text::take_text;
use serde_json::Value as Json;
use std::alloc::Global;

/// The tree that stands in front, where its arrays aren't empty and nest no deeper than so. Want of memory gives nothing, too.
#[cycle(trees)]
pub fn take_tree(alloc: Global, rest: &[u8], nesting: u8) -> Option<(Json, &[u8])>
    ensures { IfSome result (λ taken. Spells nesting rest.now (view taken.0) taken.1.now) }
{
    let rest = after_gap(rest);
    let first = *rest.first()?;
    if first == b'"' {
        take_text_tree(alloc, rest)
    } else if first == b'[' {
        if nesting == 0 {
            return None;
        }
        take_list(alloc, rest, nesting - 1)
    } else {
        take_number_tree(rest)
    }
}

fn take_text_tree(alloc: Global, rest: &[u8]) -> Option<(Json, &[u8])>
    ensures { IfSome result (λ taken. Spells 0 rest.now (view taken.0) taken.1.now) }
{
    let (text, rest) = take_text(rest)?;
    match String::from_str(alloc, text) {
        Ok(text) => Some((Json::String(text), rest)),
        Err(_) => None,
    }
}

fn take_number_tree(rest: &[u8]) -> Option<(Json, &[u8])>
    ensures { IfSome result (λ taken. Spells 0 rest.now (view taken.0) taken.1.now) }
{
    let (number, rest) = take_number(rest)?;
    Some((Json::Number(number), rest))
}

/// The array that stands in front, whose parts nest no deeper than so.
#[cycle(trees)]
fn take_list(alloc: Global, bytes: &[u8], nesting: u8) -> Option<(Json, &[u8])>
    ensures { IfSome result (λ taken. Spells (nesting + 1) bytes.now (view taken.0) taken.1.now) }
{
    let inside = after_open(bytes)?;
    let (first, behind) = take_tree(alloc, inside, nesting)?;
    let mut rest = behind;
    let mut items = Vec::new(alloc);
    push_item(&mut items, first)?;
    for _ in 0..rest.len() {
        let Some(next) = after_comma(rest) else {
            let behind = after_close(rest)?;
            return Some((Json::Array(items), behind));
        };
        let (item, behind) = take_tree(alloc, next, nesting)?;
        push_item(&mut items, item)?;
        rest = behind;
    }
    None
}

fn push_item(items: &mut Vec<Json>, item: Json) -> Option<()>
    ensures { IfSome result (λ _. items.new.items ≡ items.old.items ++ item ∷ []) }
{
    match items.push(item) {
        Ok(()) => Some(()),
        Err(_) => None,
    }
}
