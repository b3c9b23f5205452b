//! Scripts in usual spellings, read straight from the bytes. A script that isn't, or is refused, is left to the reading that goes by the tree.

ghost use Rattle.std.specs.Prelude.{◌≡◌, Ok, IfSome};
ghost use Rattle.std.specs.Str.{IsUtf8};
ghost use Rattle.model_scripts.specs.Script.{script_of};
ghost use Rattle.lasp_graph.specs.Library.{library_of};
ghost use Rattle.lasp_script.specs.Progress.{progress_over};
ghost use Rattle.lasp_script.specs.Usual.{IsBegun, IsReadTo, IsNext};

use super::placed::take_placed;
use super::progress::Progress;
use super::read::{read_behind, read_next};
use super::script::Script;
use super::word::nodes_of;
use lasp_fns::Library;
use lasp_graph::Graph;
use lasp_spelling::{after_close, after_comma, after_open, is_over, take_tree};
use std::alloc::Global;

/// How deep the parts of a script may nest.
const NESTING_LIMIT: u8 = 126;

/// The script that the bytes are against a graph and a library, where they are in usual spellings, as programs write them: texts without escapes, integers in decimal and arrays, with white space anywhere between these. Nothing where they aren't, where the script is refused, or for want of memory.
/// It costs one pass over the bytes and takes memory for the commands, and for the trees of values and thresholds, one at a time.
pub fn usual_script(alloc: Global, bytes: &[u8], g: &Graph, lib: &Library) -> Option<Script>
    ensures { IfSome result (λ s. script_of (library_of lib.now) g.now bytes.now ≡ Ok s) }
{
    match std::str::from_utf8(bytes) {
        Ok(_) => usual_parts(alloc, bytes, g, lib),
        Err(_) => None,
    }
}

fn usual_parts(alloc: Global, bytes: &[u8], g: &Graph, lib: &Library) -> Option<Script>
    requires { IsUtf8 bytes.now }
    ensures { IfSome result (λ s. script_of (library_of lib.now) g.now bytes.now ≡ Ok s) }
{
    let (nodes, progress, rest) = take_parts(alloc, bytes, g, lib)?;
    let end = after_close(rest)?;
    if is_over(end) {
        Some(Script::of(nodes, progress.into_commands()))
    } else {
        None
    }
}

/// The number of nodes, the commands, and the bytes behind them.
fn take_parts<'a>(
    alloc: Global,
    bytes: &'a [u8],
    g: &Graph,
    lib: &Library,
) -> Option<(u8, Progress, &'a [u8])>
    ensures { IfSome result (λ taken. IsReadTo (library_of lib.now) g.now bytes.now taken.0 (progress_over g.now taken.1) taken.2.now) }
{
    let (nodes, start) = take_nodes(alloc, bytes)?;
    let mut rest = start;
    let mut progress = Progress::new(alloc);
    for _ in 0..start.len() {
        let Some(next) = after_comma(rest) else {
            return Some((nodes, progress, rest));
        };
        match take_next(alloc, next, g, lib, nodes, progress) {
            Some((more, behind)) => {
                progress = more;
                rest = behind;
            }
            None => return None,
        }
    }
    None
}

/// The number of nodes, which the first part tells.
fn take_nodes(alloc: Global, bytes: &[u8]) -> Option<(u8, &[u8])>
    ensures { IfSome result (λ taken. IsBegun bytes.now taken.0 taken.1.now) }
{
    let inside = after_open(bytes)?;
    let (first, rest) = take_tree(alloc, inside, NESTING_LIMIT)?;
    let nodes = nodes_of(&first)?;
    Some((nodes, rest))
}

/// The commands with the next one.
fn take_next<'a>(
    alloc: Global,
    bytes: &'a [u8],
    g: &Graph,
    lib: &Library,
    nodes: u8,
    before: Progress,
) -> Option<(Progress, &'a [u8])>
    ensures { IfSome result (λ taken. IsNext (library_of lib.now) nodes (progress_over g.now before) bytes.now (progress_over g.now taken.0) taken.1.now) }
{
    let Some((placed, rest)) = take_placed(alloc, bytes) else {
        return take_by_tree(alloc, bytes, g, lib, nodes, before);
    };
    let word = placed.as_word()?;
    match read_behind(alloc, &word, g, lib, nodes, before) {
        Ok(next) => Some((next, rest)),
        Err(_) => None,
    }
}

/// The commands with the next one, of any form. Its tree is dropped at once.
fn take_by_tree<'a>(
    alloc: Global,
    bytes: &'a [u8],
    g: &Graph,
    lib: &Library,
    nodes: u8,
    before: Progress,
) -> Option<(Progress, &'a [u8])>
    ensures { IfSome result (λ taken. IsNext (library_of lib.now) nodes (progress_over g.now before) bytes.now (progress_over g.now taken.0) taken.1.now) }
{
    let (tree, rest) = take_tree(alloc, bytes, NESTING_LIMIT)?;
    match read_next(alloc, &tree, g, lib, nodes, before) {
        Ok(next) => Some((next, rest)),
        Err(_) => None,
    }
}
