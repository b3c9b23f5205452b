//! `live`: the graph, the script, and its nodes beside each other.

ghost use Rattle.std.specs.Prelude.{◌≡◌, ◌<◌, ◌≤◌, length};
ghost use Rattle.std.specs.Arc.{arc_value};
ghost use Rattle.model_live.specs.Words.{AreLive};
ghost use Rattle.model_program.specs.Live.{LiveEnds, LiveFollows};
ghost use Rattle.lasp_run.specs.Prelude.{AreUnchanged, AreLater, seen, writing_of, IsRunnable, library_of, words_of};
ghost use Rattle.lasp_top.specs.Live.{IsTooLarge, LiveAllows, lived_of};

use lasp_call::{end_with_text, status, tell_failure, tell_refusal};
use lasp_edge::{Files, Sink};
use lasp_fns::Library;
use lasp_graph::Graph;
use lasp_live::{first_other, first_too_large};
use lasp_live_run::{Lived, live};
use lasp_run::{Opened, open_run};
use lasp_script::Script;
use lasp_workers::Gate;
use model_live::the_first_command_of_another_word_is_told;
use model_program::{Failure, Refusal};
use std::alloc::{AllocGlobal, Global};
use std::random::RandomSource;
use std::sync::{Arc, Wait};
use std::thread::Threads;

/// The refusal of a variable that all updates of a script make too large.
fn too_large(graph: &Graph, script: &Script, x: u8) -> Failure
    requires var { x < length graph.now }
    requires few { length script.now.commands < 100000 }
    ensures { IsTooLarge graph.now script.now x result }
{
    match graph.at(u64::from(x)).name.try_clone() {
        Ok(name) => Failure::Refused(Refusal::TooLarge(script.len() as u32 + 1, 0, name)),
        Err(_) => Failure::Memory,
    }
}

/// Runs the nodes of a script that they know beside each other.
#[tactic(auto, using(crate::proofs::LiveLaws::livings))]
fn run_live<R: Threads + Wait + RandomSource + AllocGlobal + Sync, G: Gate + Sync>(
    rt: &R,
    alloc: Global,
    graph: &Arc<Graph>,
    script: Script,
    workers: u8,
    lib: &Library,
    gate: &G,
) -> Result<Lived, Failure>
    requires runnable { IsRunnable (library_of lib.now) (arc_value graph.now) script }
    requires live { AreLive script.commands }
    ensures { LiveAllows (arc_value graph.now) script (lived_of result) }
{
    match first_too_large(alloc, graph, &script, lib) {
        Ok(None) => match Arc::new(alloc, script) {
            Ok(script) => match live(rt, alloc, graph, &script, workers, lib, gate) {
                Ok(lived) => Ok(lived),
                Err(_) => Err(Failure::Memory),
            },
            Err(_) => Err(Failure::Memory),
        },
        Ok(Some(x)) => Err(too_large(graph, &script, x)),
        Err(_) => Err(Failure::Memory),
    }
}

/// Runs the nodes of a script beside each other, or refuses it.
#[tactic(auto, using(crate::proofs::LiveLaws::livings))]
fn live_over<R: Threads + Wait + RandomSource + AllocGlobal + Sync, G: Gate + Sync>(
    rt: &R,
    alloc: Global,
    graph: &Arc<Graph>,
    script: Script,
    workers: u8,
    lib: &Library,
    gate: &G,
) -> Result<Lived, Failure>
    requires { IsRunnable (library_of lib.now) (arc_value graph.now) script }
    ensures { LiveAllows (arc_value graph.now) script (lived_of result) }
{
    the_first_command_of_another_word_is_told();
    match first_other(&script) {
        Some(number) => Err(Failure::Refused(Refusal::NotLive(number))),
        None => run_live(rt, alloc, graph, script, workers, lib, gate),
    }
}

/// Reads the graph and the script, and runs its nodes beside each other with so many workers.
pub(crate) fn open_live<
    R: Threads + Wait + RandomSource + AllocGlobal + Sync,
    F: Files,
    G: Gate + Sync,
>(
    rt: &R,
    alloc: Global,
    words: &[String],
    files: &mut F,
    workers: u8,
    lib: &Library,
    gate: &G,
) -> Result<Lived, Failure>
    requires { 2 < length words.now }
    ensures same { AreUnchanged F.content files.old files.new }
    ensures later { AreLater F.faults files.old files.new }
    ensures follows { LiveFollows (library_of lib.now) (words_of words.now) (seen F.content F.faults files.old files.new) (lived_of result) }
{
    match open_run(alloc, words, files, lib) {
        Ok(Opened { graph, script }) => live_over(rt, alloc, &graph, script, workers, lib, gate),
        Err(failure) => Err(failure),
    }
}

/// Writes the text, and tells of the first node that failed, if one did; or says why there is none. It answers the status.
#[tactic(auto, unfolding(model_program::specs::Live::LiveEnds))]
pub(crate) fn end_live<O: Sink, E: Sink>(
    words: &[String],
    answer: Result<Lived, Failure>,
    out: &mut O,
    err: &mut E,
) -> u8
    ensures out_later { O.faults out.old ≤ O.faults out.new }
    ensures err_later { E.faults err.old ≤ E.faults err.new }
    ensures ends { LiveEnds (words_of words.now) (lived_of answer) (writing_of O.written O.faults out.old out.new)
        (writing_of E.written E.faults err.old err.new) result }
{
    match answer {
        Ok(lived) => {
            let status = end_with_text(lived.text.as_bytes(), out, err);
            match lived.failed {
                Some(command) if status == 0 => {
                    tell_refusal(words, &Refusal::NotReached(command), err);
                    8
                }
                _ => status,
            }
        }
        Err(failure) => {
            tell_failure(words, &failure, err);
            status(&failure)
        }
    }
}
