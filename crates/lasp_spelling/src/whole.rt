//! Whole texts.

ghost use Rattle.std.specs.Prelude.{◌≡◌, IfSome, Some};
ghost use Rattle.serde_json.specs.Read.{read};
ghost use Rattle.serde_json.specs.View.{view};

use super::sign::is_over;
use super::tree::take_tree;
use serde_json::Value as Json;
use std::alloc::Global;

/// How deep JSON may nest.
const NESTING_LIMIT: u8 = 127;

/// The tree that a text is, where all of it is in usual spellings.
pub fn usual_tree(alloc: Global, bytes: &[u8]) -> Option<Json>
    ensures { IfSome result (λ tree. read bytes.now ≡ Some (view tree)) }
{
    let (tree, rest) = take_tree(alloc, bytes, NESTING_LIMIT)?;
    if is_over(rest) { Some(tree) } else { None }
}
