//! `delta`: the graph, the script, its run with messages that travel as deltas, and a text of its last world and of how it travelled.

ghost use Rattle.std.specs.Prelude.{◌<◌, length};
ghost use Rattle.lasp_run.specs.Prelude.{arc_value, delta_answer, Gives, Follows, running_deltas, AreUnchanged, AreLater, seen, library_of, IsRunnable, words_of, answered};

use crate::open::open_run;
use crate::run::failure_of;
use lasp_delta::deltas_on;
use lasp_drive::FreshNode;
use lasp_edge::Files;
use lasp_fns::Library;
use lasp_graph::Graph;
use lasp_script::Script;
use model_program::Failure;
use std::alloc::Global;
use std::sync::Arc;

/// Runs a script over its graph by deltas, and gives what is written of it.
fn report<N: FreshNode>(
    alloc: Global,
    graph: &Arc<Graph>,
    lib: &Library,
    script: &Script,
) -> Result<Vec<u8>, Failure>
    requires { IsRunnable (library_of lib.now) (arc_value graph.now) script.now }
    ensures { Gives (λ text. text.items) (delta_answer (arc_value graph.now) script.now) result }
{
    match deltas_on::<N>(alloc, graph, lib, script) {
        Ok(text) => Ok(text),
        Err(halt) => Err(failure_of(graph, script, halt)),
    }
}

/// `delta`: reads the graph and the script, and runs them by deltas.
pub(crate) fn run_deltas<N: FreshNode, F: Files>(
    alloc: Global,
    words: &[String],
    files: &mut F,
    lib: &Library,
) -> Result<Vec<u8>, Failure>
    requires { 2 < length words.now }
    ensures same { AreUnchanged F.content files.old files.new }
    ensures later { AreLater F.faults files.old files.new }
    ensures follows { Follows (words_of words.now) (seen F.content F.faults files.old files.new) (running_deltas (library_of lib.now)) (answered result) }
{
    match open_run(alloc, words, files, lib) {
        Ok(opened) => report::<N>(alloc, &opened.graph, lib, &opened.script),
        Err(failure) => Err(failure),
    }
}
