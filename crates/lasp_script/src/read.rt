//! Reading a script: the tree of its bytes, the number of nodes, then command after command against the graph so far.

ghost use Rattle.std.specs.Prelude.{◌≡◌, [], ◌∷◌, Some, map, IfOk};
ghost use Rattle.serde_json.specs.Data.{Data};
ghost use Rattle.serde_json.specs.View.{view};
ghost use Rattle.model_readings.specs.Lawful.{IsGraph, FitsAll};
ghost use Rattle.model_world.specs.Lawful.{IsLawful, IsWithinLimits};
ghost use Rattle.model_scripts.specs.Progress.{opening, grown};
ghost use Rattle.model_scripts.specs.Script.{next_read, commands_read, parts_read, tree_read, script_of};
ghost use Rattle.lasp_graph.specs.Library.{library_of};
ghost use Rattle.lasp_script.specs.Progress.{progress_over};
ghost use Rattle.model_scripts.specs.Word.{word_of};
ghost use Rattle.lasp_script.specs.Word.{word_view};
ghost use Rattle.lasp_script.specs.Answers.{Answers, Gives};

use super::progress::Progress;
use super::refused::{CommandRefused, ScriptRefused};
use super::script::Script;
use super::step::read_command;
use super::usual::usual_script;
use super::word::{Word, nodes_of, word_of};
use lasp_fns::Library;
use lasp_graph::Graph;
use model_scripts::ScriptWhy;
use serde_json::Value as Json;
use std::alloc::Global;

/// The script that the bytes of a file are against a graph and a library, in one pass over its commands. The graph is copied where commands declare variables, and only there.
pub fn read_script(
    alloc: Global,
    bytes: &[u8],
    g: &Graph,
    lib: &Library,
) -> Result<Script, ScriptRefused>
    ensures exact { Gives (λ s. s) result (script_of (library_of lib.now) g.now bytes.now) }
    ensures lawful { IfOk result (λ s. IsLawful g.now s) }
    ensures limits { IfOk result (λ s. IsWithinLimits s) }
    ensures graph { IfOk result (λ s. IsGraph (grown g.now s.commands)) }
    ensures fits { FitsAll (library_of lib.now) g.now → IfOk result (λ s. FitsAll (library_of lib.now) (grown g.now s.commands)) }
{
    g.recall();
    read_bytes(alloc, bytes, g, lib)
}

/// Reads a script straight from its bytes where they are in usual spellings, and else by the tree.
fn read_bytes(
    alloc: Global,
    bytes: &[u8],
    g: &Graph,
    lib: &Library,
) -> Result<Script, ScriptRefused>
    ensures { Gives (λ s. s) result (script_of (library_of lib.now) g.now bytes.now) }
{
    match usual_script(alloc, bytes, g, lib) {
        Some(script) => Ok(script),
        None => read_json(alloc, bytes, g, lib),
    }
}

/// Reads a script by the tree of its bytes.
#[tactic(auto, using(crate::proofs::Bytes::trees))]
fn read_json(alloc: Global, bytes: &[u8], g: &Graph, lib: &Library) -> Result<Script, ScriptRefused>
    ensures { Gives (λ s. s) result (script_of (library_of lib.now) g.now bytes.now) }
{
    match Json::from_slice(alloc, bytes) {
        Ok(tree) => read_tree(alloc, &tree, g, lib),
        Err(e) if e.is_memory() => Err(ScriptRefused::Memory),
        Err(_) => Err(ScriptRefused::At {
            number: 0,
            why: ScriptWhy::NotJson,
        }),
    }
}

#[tactic(auto, using(lasp_graph::proofs::Items::lists), unfolding(model_scripts::specs::Script::tree_read))]
fn read_tree(alloc: Global, tree: &Json, g: &Graph, lib: &Library) -> Result<Script, ScriptRefused>
    ensures { Gives (λ s. s) result (tree_read (library_of lib.now) g.now (view tree.now)) }
{
    match tree.as_array() {
        Some(items) => read_parts(alloc, items, g, lib),
        None => Err(ScriptRefused::At {
            number: 0,
            why: ScriptWhy::Shape,
        }),
    }
}

#[tactic(auto, unfolding(model_scripts::specs::Script::parts_read))]
fn read_parts(
    alloc: Global,
    items: &[Json],
    g: &Graph,
    lib: &Library,
) -> Result<Script, ScriptRefused>
    ensures { Gives (λ s. s) result (parts_read (library_of lib.now) g.now (map view items.now)) }
{
    match items.split_first() {
        Some((first, rest)) => read_after(alloc, first, rest, g, lib),
        None => Err(ScriptRefused::At {
            number: 0,
            why: ScriptWhy::Shape,
        }),
    }
}

/// Reads the commands behind the first, which tells the nodes.
#[tactic(auto, unfolding(model_scripts::specs::Script::parts_read))]
fn read_after(
    alloc: Global,
    first: &Json,
    rest: &[Json],
    g: &Graph,
    lib: &Library,
) -> Result<Script, ScriptRefused>
    ensures { Gives (λ s. s) result (parts_read (library_of lib.now) g.now (view first.now ∷ map view rest.now)) }
{
    let Some(nodes) = nodes_of(first) else {
        return Err(ScriptRefused::At {
            number: 0,
            why: ScriptWhy::Shape,
        });
    };
    let last = read_commands(alloc, rest, g, lib, nodes)?;
    Ok(Script::of(nodes, last.into_commands()))
}

fn read_commands(
    alloc: Global,
    items: &[Json],
    g: &Graph,
    lib: &Library,
    nodes: u8,
) -> Result<Progress, ScriptRefused>
    ensures { Gives (λ p. progress_over g.now p) result (commands_read (library_of lib.now) nodes (opening g.now) (map view items.now)) }
{
    let mut progress = Progress::new(alloc);
    for j in items {
        let number = progress.number();
        match read_next(alloc, j, g, lib, nodes, progress) {
            Ok(next) => progress = next,
            Err(refused) => return Err(refused.at(number)),
        }
    }
    Ok(progress)
}

/// Reads one command behind those before it.
pub(crate) fn read_next(
    alloc: Global,
    j: &Json,
    g: &Graph,
    lib: &Library,
    nodes: u8,
    before: Progress,
) -> Result<Progress, CommandRefused>
    ensures { Answers (λ p. progress_over g.now p) result (next_read (library_of lib.now) nodes (progress_over g.now before) (view j.now)) }
{
    let Some(word) = word_of(j) else {
        return Err(CommandRefused::Because(ScriptWhy::Shape));
    };
    read_behind(alloc, &word, g, lib, nodes, before)
}

/// Reads the command that a word is behind those before it.
pub(crate) fn read_behind(
    alloc: Global,
    word: &Word,
    g: &Graph,
    lib: &Library,
    nodes: u8,
    before: Progress,
) -> Result<Progress, CommandRefused>
    ensures { (d : Data) → word_of d ≡ Some (word_view word.now) → Answers (λ p. progress_over g.now p) result (next_read (library_of lib.now) nodes (progress_over g.now before) d) }
{
    match read_command(alloc, word, g, lib, nodes, &before) {
        Ok(command) => Ok(before.with(alloc, command, word.new_mark(), g, nodes)?),
        Err(refused) => Err(refused),
    }
}
