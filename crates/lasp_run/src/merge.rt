//! `merge`: the graph, the messages of files, joined one after the other, and what the variables show of all of them.

ghost use Rattle.std.specs.Prelude.{◌<◌, ◌+◌, ◌-◌, Some, None, IfOk, length};
ghost use Rattle.lasp_run.specs.Prelude.{arc_value, FitsAll, Says, exactly, Performs, Follows, merging_file, merging_more, merging_files, merge_answer, merging, AreUnchanged, AreLater, seen, library_of, peer_by, IsReplica, ComesTo, words_of, answered};

mod join;
mod text;

use crate::merge::join::{join_first, join_next};
use crate::merge::text::merged_text;
use crate::open::{open_graph, read_file};
use lasp_drive::{FreshNode, Node};
use lasp_edge::Files;
use lasp_fns::Library;
use lasp_graph::Graph;
use model_program::Failure;
use std::alloc::Global;
use std::sync::Arc;

/// A node with the message of the first file.
fn merge_first<N: FreshNode, F: Files>(
    alloc: Global,
    words: &[String],
    graph: &Arc<Graph>,
    files: &mut F,
) -> Result<N, Failure>
    requires { 2 < length words.now }
    ensures same { AreUnchanged F.content files.old files.new }
    ensures later { AreLater F.faults files.old files.new }
    ensures part { Performs (peer_by N.view) (words_of words.now) (seen F.content F.faults files.old files.new) (merging_file (arc_value graph.now) 0 None) result }
    ensures node { IfOk result (λ node. IsReplica (arc_value graph.now) (N.view node)) }
{
    match read_file(alloc, words, 2, files) {
        Ok(bytes) => join_first(alloc, graph, &bytes),
        Err(failure) => Err(failure),
    }
}

/// The node with the message of one file more.
fn merge_next<N: Node, F: Files>(
    alloc: Global,
    words: &[String],
    graph: &Graph,
    number: u8,
    node: N,
    files: &mut F,
) -> Result<N, Failure>
    requires word { number + 2 < length words.now }
    requires node { IsReplica graph.now (N.view node) }
    ensures same { AreUnchanged F.content files.old files.new }
    ensures later { AreLater F.faults files.old files.new }
    ensures part { Performs (peer_by N.view) (words_of words.now) (seen F.content F.faults files.old files.new) (merging_file graph.now number (Some (N.view node).peer)) result }
    ensures node { IfOk result (λ node. IsReplica graph.now (N.view node)) }
{
    match read_file(alloc, words, usize::from(number) + 2, files) {
        Ok(bytes) => join_next(alloc, graph, number, node, &bytes),
        Err(failure) => Err(failure),
    }
}

/// The node with the messages of all files after the first.
fn merge_rest<N: Node, F: Files>(
    alloc: Global,
    words: &[String],
    graph: &Graph,
    first: N,
    files: &mut F,
) -> Result<N, Failure>
    requires some { 2 < length words.now }
    requires few { length words.now < 11 }
    requires node { IsReplica graph.now (N.view first) }
    ensures same { AreUnchanged F.content files.old files.new }
    ensures later { AreLater F.faults files.old files.new }
    ensures rest { ComesTo (peer_by N.view) (words_of words.now) (seen F.content F.faults files.old files.new) (merging_more graph.now 1 (length words.now - 3) (N.view first).peer) (λ r. Says (exactly (merge_answer graph.now (length words.now - 2) r))) result }
    ensures node { IfOk result (λ node. IsReplica graph.now (N.view node)) }
{
    let mut node = first;
    for number in 1..(words.len() - 2) as u8 {
        match merge_next(alloc, words, graph, number, node, files) {
            Ok(next) => node = next,
            Err(failure) => return Err(failure),
        }
    }
    Ok(node)
}

/// What the variables show of all files, the node having that of the first.
fn merge_more<N: Node, F: Files>(
    alloc: Global,
    words: &[String],
    graph: &Graph,
    first: N,
    files: &mut F,
    lib: &Library,
) -> Result<Vec<u8>, Failure>
    requires some { 2 < length words.now }
    requires few { length words.now < 11 }
    requires node { IsReplica graph.now (N.view first) }
    requires fits { FitsAll (library_of lib.now) graph.now }
    ensures same { AreUnchanged F.content files.old files.new }
    ensures later { AreLater F.faults files.old files.new }
    ensures follows { Follows (words_of words.now) (seen F.content F.faults files.old files.new) (merging_more graph.now 1 (length words.now - 3) (N.view first).peer) (answered result) }
{
    match merge_rest(alloc, words, graph, first, files) {
        Ok(node) => merged_text(alloc, graph, (words.len() - 2) as u8, node, lib),
        Err(failure) => Err(failure),
    }
}

/// The same, once the graph is read.
fn merge_files<N: FreshNode, F: Files>(
    alloc: Global,
    words: &[String],
    graph: &Arc<Graph>,
    files: &mut F,
    lib: &Library,
) -> Result<Vec<u8>, Failure>
    requires some { 2 < length words.now }
    requires few { length words.now < 11 }
    requires fits { FitsAll (library_of lib.now) (arc_value graph.now) }
    ensures same { AreUnchanged F.content files.old files.new }
    ensures later { AreLater F.faults files.old files.new }
    ensures follows { Follows (words_of words.now) (seen F.content F.faults files.old files.new) (merging_files (arc_value graph.now) (length words.now - 3)) (answered result) }
{
    match merge_first::<N, F>(alloc, words, graph, files) {
        Ok(node) => merge_more(alloc, words, graph, node, files, lib),
        Err(failure) => Err(failure),
    }
}

/// `merge`: reads the graph, joins the messages of the files, and tells what the variables show of all of them.
pub fn run_merge<N: FreshNode, F: Files>(
    alloc: Global,
    words: &[String],
    files: &mut F,
    lib: &Library,
) -> Result<Vec<u8>, Failure>
    requires some { 2 < length words.now }
    requires few { length words.now < 11 }
    ensures same { AreUnchanged F.content files.old files.new }
    ensures later { AreLater F.faults files.old files.new }
    ensures follows { Follows (words_of words.now) (seen F.content F.faults files.old files.new) (merging (library_of lib.now) (length words.now - 3)) (answered result) }
{
    match open_graph(alloc, words, files, lib) {
        Ok(graph) => merge_files::<N, F>(alloc, words, &graph, files, lib),
        Err(failure) => Err(failure),
    }
}
