//! `plain` and `export`: the graph, the script, its run, and a text of the run's last world.

ghost use Rattle.std.specs.Prelude.{◌<◌, length};
ghost use Rattle.lasp_run.specs.Prelude.{arc_value, IsLawful, report_of, ended, Gives, Follows, running, run_answer, exporting, export_answer, AreUnchanged, AreLater, seen, Halts, IsRunnable, library_of, IsStop, words_of, answered};

use crate::name::declared_name;
use crate::open::open_run;
use lasp_drive::{FreshNode, Halt, drive_on, export_on};
use lasp_edge::Files;
use lasp_fns::Library;
use lasp_graph::Graph;
use lasp_script::Script;
use model_program::{Failure, Refusal};
use model_runs::runs_stop_at_declared_variables;
use model_scripts::ScriptWhy;
use std::alloc::Global;
use std::sync::Arc;

/// The failure of a run that stopped. A variable is told by its name, and may be one that the script declares.
#[tactic(auto, using(crate::proofs::PartLaws::runs))]
pub fn failure_of(graph: &Graph, script: &Script, halt: Halt) -> Failure
    requires lawful { IsLawful graph.now script.now }
    requires halts { Halts (ended graph.now script.now) halt }
    ensures { IsStop graph.now script.now result }
{
    runs_stop_at_declared_variables();
    match halt {
        Halt::TooLarge(command, node, var) => match declared_name(graph, script, var) {
            Ok(name) => Failure::Refused(Refusal::TooLarge(command, node, name)),
            Err(_) => Failure::Memory,
        },
        Halt::NetworkFull(command) => Failure::Refused(Refusal::NetworkFull(command)),
        Halt::NotReached(command) => Failure::Refused(Refusal::NotReached(command)),
        Halt::Memory => Failure::Memory,
    }
}

#[tactic(auto, using(crate::proofs::PartLaws::runs))]
/// Runs a script over its graph, and gives the report.
fn report<N: FreshNode>(
    alloc: Global,
    graph: &Arc<Graph>,
    lib: &Library,
    script: &Script,
) -> Result<Vec<u8>, Failure>
    requires { IsRunnable (library_of lib.now) (arc_value graph.now) script.now }
    ensures { Gives (λ text. text.items) (run_answer report_of (arc_value graph.now) script.now) result }
{
    match drive_on::<N>(alloc, graph, lib, script) {
        Ok(text) => Ok(text),
        Err(halt) => Err(failure_of(graph, script, halt)),
    }
}

#[tactic(auto, using(crate::proofs::PartLaws::runs))]
/// Runs a script over its graph, and gives the message of one of its nodes.
fn message<N: FreshNode>(
    alloc: Global,
    graph: &Arc<Graph>,
    lib: &Library,
    script: &Script,
    node: u8,
) -> Result<Vec<u8>, Failure>
    requires { IsRunnable (library_of lib.now) (arc_value graph.now) script.now }
    ensures { Gives (λ text. text.items) (export_answer node (arc_value graph.now) script.now) result }
{
    if node >= script.nodes() {
        let number = script.len() as u32 + 1;
        return Err(Failure::Refused(Refusal::Script(number, ScriptWhy::NoSuchNode)));
    }
    match export_on::<N>(alloc, graph, lib, script, node) {
        Ok(bytes) => Ok(bytes),
        Err(halt) => Err(failure_of(graph, script, halt)),
    }
}

/// `plain`: reads the graph and the script, and runs them.
pub fn run_plain<N: FreshNode, F: Files>(
    alloc: Global,
    words: &[String],
    files: &mut F,
    lib: &Library,
) -> Result<Vec<u8>, Failure>
    requires { 2 < length words.now }
    ensures same { AreUnchanged F.content files.old files.new }
    ensures later { AreLater F.faults files.old files.new }
    ensures follows { Follows (words_of words.now) (seen F.content F.faults files.old files.new) (running (library_of lib.now) report_of) (answered result) }
{
    match open_run(alloc, words, files, lib) {
        Ok(opened) => report::<N>(alloc, &opened.graph, lib, &opened.script),
        Err(failure) => Err(failure),
    }
}

/// `export`: reads the graph and the script, runs them, and gives the message of the node.
pub fn run_export<N: FreshNode, F: Files>(
    alloc: Global,
    words: &[String],
    node: u8,
    files: &mut F,
    lib: &Library,
) -> Result<Vec<u8>, Failure>
    requires { 2 < length words.now }
    ensures same { AreUnchanged F.content files.old files.new }
    ensures later { AreLater F.faults files.old files.new }
    ensures follows { Follows (words_of words.now) (seen F.content F.faults files.old files.new) (exporting (library_of lib.now) node) (answered result) }
{
    match open_run(alloc, words, files, lib) {
        Ok(opened) => message::<N>(alloc, &opened.graph, lib, &opened.script, node),
        Err(failure) => Err(failure),
    }
}
