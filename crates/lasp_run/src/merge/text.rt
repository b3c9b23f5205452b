//! What the variables show of all files.

ghost use Rattle.std.specs.Prelude.{◌≡◌, ◌++◌, ◌∷◌, [], IfOk, OnOk, string_bytes, map};
ghost use Rattle.lasp_run.specs.Prelude.{decimal, line, shown_at, FitsAll, Gives, value_lines, counts_line, merge_text, merge_answer, library_of, shown_state, IsSettled, IsReplica};

use crate::merge::join::too_large;
use lasp_drive::{Node, NodeStop, push_counts, push_state};
use lasp_fns::Library;
use lasp_graph::Graph;
use lasp_state::State;
use model_program::Failure;
use std::alloc::{AllocError, Global};

/// Appends the line of a variable.
fn push_value(text: &mut String, name: &str, state: &State) -> Result<(), AllocError>
    ensures { OnOk result (string_bytes text.new ≡ string_bytes text.old ++ line (name.now ∷ shown_state state.now ∷ [])) }
{
    text.push_str(name)?;
    push_state(text, state)
}

/// Appends a line for each variable of a settled node.
fn push_values<N: Node>(text: &mut String, graph: &Graph, node: &mut N) -> Result<(), AllocError>
    requires graph { (N.view node.old).decls ≡ graph.now }
    requires settled { IsSettled (N.view node.old) }
    ensures { OnOk result (string_bytes text.new ≡ string_bytes text.old ++ value_lines 0 graph.now (shown_at graph.now (N.view node.old).peer)) }
{
    for x in 0..graph.len() {
        let state = node.state(x as u8)?;
        push_value(text, graph.at(x).name.as_str(), &state)?;
    }
    Ok(())
}

/// Appends the line of what the node knows.
fn push_known(text: &mut String, counts: &[u64]) -> Result<(), AllocError>
    ensures { OnOk result (string_bytes text.new ≡ string_bytes text.old ++ counts_line counts.now) }
{
    text.push_str("known")?;
    push_counts(text, counts)
}

fn text_of<N: Node>(alloc: Global, graph: &Graph, node: &mut N) -> Result<Vec<u8>, AllocError>
    requires graph { (N.view node.old).decls ≡ graph.now }
    requires settled { IsSettled (N.view node.old) }
    ensures { IfOk result (λ text. text.items ≡ merge_text graph.now (N.view node.old).peer) }
{
    let mut text = String::new(alloc);
    let counts = node.counts(alloc)?;
    push_values(&mut text, graph, node)?;
    push_known(&mut text, counts.as_slice())?;
    Ok(text.into_bytes())
}

/// The text of a node that has the messages of so many files.
pub(crate) fn merged_text<N: Node>(
    alloc: Global,
    graph: &Graph,
    files: u8,
    mut node: N,
    lib: &Library,
) -> Result<Vec<u8>, Failure>
    requires node { IsReplica graph.now (N.view node) }
    requires fits { FitsAll (library_of lib.now) graph.now }
    ensures { Gives (λ text. text.items) (merge_answer graph.now files (N.view node).peer) result }
{
    match node.settle(alloc, lib) {
        Ok(()) => match text_of(alloc, graph, &mut node) {
            Ok(text) => Ok(text),
            Err(_) => Err(Failure::Memory),
        },
        Err(NodeStop::TooLarge(var)) => Err(too_large(graph, files, var)),
        Err(NodeStop::Memory) => Err(Failure::Memory),
    }
}
