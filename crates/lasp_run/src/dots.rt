//! `dots`: a script over one set, on replicas that keep no tombstones.

ghost use Rattle.std.specs.Prelude.{◌≡◌, ◌<◌, length, IfOk};
ghost use Rattle.lasp_run.specs.Prelude.{one_set, AreUnchanged, AreLater, seen, dots_answer, Gives, Follows, Performs, dots_scripting, running_dots, library_of, IsRunnable, words_of, answered};

use lasp_call::open_script;
use lasp_dots::{first_other, one_set, run_dots};
use lasp_edge::Files;
use lasp_fns::Library;
use lasp_script::Script;
use model_program::{Failure, Refusal};
use std::alloc::Global;

/// Reads the script against the graph of one set: the second word's file.
fn open_dots<F: Files>(
    alloc: Global,
    words: &[String],
    files: &mut F,
    lib: &Library,
) -> Result<Script, Failure>
    requires { 1 < length words.now }
    ensures same { AreUnchanged F.content files.old files.new }
    ensures later { AreLater F.faults files.old files.new }
    ensures part { Performs (λ s. s) (words_of words.now) (seen F.content F.faults files.old files.new) (dots_scripting (library_of lib.now)) result }
    ensures runnable { IfOk result (λ s. IsRunnable (library_of lib.now) one_set s) }
{
    match one_set(alloc) {
        Ok(graph) => open_script(alloc, words, 1, &graph, files, lib),
        Err(_) => Err(Failure::Memory),
    }
}

fn text_of(alloc: Global, script: &Script, lib: &Library) -> Result<Vec<u8>, Failure>
    requires { IsRunnable (library_of lib.now) one_set script.now }
    ensures { Gives (λ text. text.items) (dots_answer script.now) result }
{
    match first_other(script) {
        Some(number) => Err(Failure::Refused(Refusal::NotDots(number))),
        None => match run_dots(alloc, script) {
            Ok(text) => Ok(text),
            Err(_) => Err(Failure::Memory),
        },
    }
}

/// `dots`: reads the script, and tells what replicas without tombstones print, know and keep.
pub(crate) fn answer_dots<F: Files>(
    alloc: Global,
    words: &[String],
    files: &mut F,
    lib: &Library,
) -> Result<Vec<u8>, Failure>
    requires { 1 < length words.now }
    ensures same { AreUnchanged F.content files.old files.new }
    ensures later { AreLater F.faults files.old files.new }
    ensures follows { Follows (words_of words.now) (seen F.content F.faults files.old files.new) (running_dots (library_of lib.now)) (answered result) }
{
    match open_dots(alloc, words, files, lib) {
        Ok(script) => text_of(alloc, &script, lib),
        Err(failure) => Err(failure),
    }
}
