//! The program on one thread or several.

ghost use Rattle.std.specs.Prelude.{◌≡◌, ◌<◌, IfOk, length, string_bytes};
ghost use Rattle.model_program.specs.Call.{IsAnswered};
ghost use Rattle.model_program.specs.Plan.{word_at};
ghost use Rattle.model_program.specs.Threads.{plain_words};
ghost use Rattle.model_program.specs.Live.{IsLiveAnswered};
ghost use Rattle.model_program.specs.Top.{threaded_in, IsTraceAnswered, IsLoadAnswered, IsTopAnswered};
ghost use Rattle.lasp_run.specs.Prelude.{reading_of, writing_of, library_of, words_of};

use crate::live::{end_live, open_live};
use crate::load::run_load;
use crate::threaded::run_threaded;
use crate::trace::run_traced;
use lasp_call::end;
use lasp_edge::{Files, Sink};
use lasp_fns::Library;
use lasp_run::{one_thread, read_form};
use lasp_workers::Gate;
use model_program::{Failure, Form, Threaded, words_have_the_listed_forms};
use std::alloc::{AllocError, AllocGlobal, Global};
use std::random::RandomSource;
use std::sync::Wait;
use std::thread::Threads;

/// The form for several threads, where it is one.
fn threaded_of(form: Form) -> Option<Threaded>
    ensures { result ≡ threaded_in form }
{
    match form {
        Form::Threaded(threaded) => Some(threaded),
        Form::Plain => None,
        Form::Delta => None,
        Form::Check => None,
        Form::Dots => None,
        Form::Export(_) => None,
        Form::Merge => None,
        Form::Wrong => None,
    }
}

/// The word at a place of the command line; no text where there is none.
fn word_at(alloc: Global, words: &[String], place: usize) -> Result<String, AllocError>
    ensures { IfOk result (λ word. string_bytes word ≡ word_at (words_of words.now) place) }
{
    match words.get(place) {
        Some(word) => word.clone(),
        None => Ok(String::new(alloc)),
    }
}

/// The words of the run of the same files on one thread.
fn plain_words(alloc: Global, words: &[String]) -> Result<Vec<String>, AllocError>
    ensures { IfOk result (λ plain. words_of plain.items ≡ plain_words (words_of words.now)) }
{
    let mut plain = Vec::new(alloc);
    plain.push(String::from_str(alloc, "plain")?)?;
    plain.push(word_at(alloc, words, 1)?)?;
    plain.push(word_at(alloc, words, 2)?)?;
    Ok(plain)
}

/// `run` by so many workers: as `plain` on the same files.
fn answer_run<
    R: Threads + Wait + RandomSource + AllocGlobal + Sync,
    F: Files,
    O: Sink,
    E: Sink,
    G: Gate + Sync,
>(
    rt: &R,
    alloc: Global,
    words: &[String],
    files: &mut F,
    out: &mut O,
    err: &mut E,
    workers: u8,
    lib: &Library,
    gate: &G,
) -> u8
    ensures { IsAnswered (library_of lib.now) (plain_words (words_of words.now)) (reading_of F.content F.faults files.old files.new)
        (writing_of O.written O.faults out.old out.new) (writing_of E.written E.faults err.old err.new) result }
{
    match plain_words(alloc, words) {
        Ok(plain) => {
            let text = run_threaded(rt, alloc, &plain, files, workers, lib, gate);
            end(&plain, text, out, err)
        }
        Err(_) => end(words, Err(Failure::Memory), out, err),
    }
}

/// `trace` by so many workers.
fn answer_trace<
    R: Threads + Wait + RandomSource + AllocGlobal + Sync,
    F: Files,
    O: Sink,
    E: Sink,
    G: Gate + Sync,
>(
    rt: &R,
    alloc: Global,
    words: &[String],
    files: &mut F,
    out: &mut O,
    err: &mut E,
    workers: u8,
    lib: &Library,
    gate: &G,
) -> u8
    requires { 2 < length words.now }
    ensures { IsTraceAnswered (library_of lib.now) (words_of words.now) (reading_of F.content F.faults files.old files.new)
        (writing_of O.written O.faults out.old out.new) (writing_of E.written E.faults err.old err.new) result }
{
    let trace = run_traced(rt, alloc, words, files, workers, lib, gate);
    end(words, trace, out, err)
}

/// `live` with so many workers.
fn answer_live<
    R: Threads + Wait + RandomSource + AllocGlobal + Sync,
    F: Files,
    O: Sink,
    E: Sink,
    G: Gate + Sync,
>(
    rt: &R,
    alloc: Global,
    words: &[String],
    files: &mut F,
    out: &mut O,
    err: &mut E,
    workers: u8,
    lib: &Library,
    gate: &G,
) -> u8
    requires { 2 < length words.now }
    ensures { IsLiveAnswered (library_of lib.now) (words_of words.now) (reading_of F.content F.faults files.old files.new)
        (writing_of O.written O.faults out.old out.new) (writing_of E.written E.faults err.old err.new) result }
{
    let lived = open_live(rt, alloc, words, files, workers, lib, gate);
    end_live(words, lived, out, err)
}

/// `load` of a seed and a count by so many workers. It reads no file.
fn answer_load<
    R: Threads + Wait + RandomSource + AllocGlobal + Sync,
    F: Files,
    O: Sink,
    E: Sink,
    G: Gate + Sync,
>(
    rt: &R,
    alloc: Global,
    words: &[String],
    files: &mut F,
    out: &mut O,
    err: &mut E,
    seed: u32,
    count: u32,
    workers: u8,
    lib: &Library,
    gate: &G,
) -> u8
    requires { seed < 2147483648 }
    ensures { IsLoadAnswered (library_of lib.now) seed count (words_of words.now) (reading_of F.content F.faults files.old files.new)
        (writing_of O.written O.faults out.old out.new) (writing_of E.written E.faults err.old err.new) result }
{
    let summary = run_load(rt, alloc, seed, count, workers, lib, gate);
    end(words, summary, out, err)
}

/// The program with worker threads, 1 to 16, each of which passes the gate in its jobs. `run GRAPH SCRIPT WORKERS` is answered as `plain GRAPH SCRIPT` is; `trace GRAPH SCRIPT WORKERS` writes the same report and then the journals of all nodes; `load SEED COUNT WORKERS` runs a script that it makes, reads no file, and writes a summary; `live GRAPH SCRIPT WORKERS` runs the nodes of the script beside each other and writes what each went through. All other words are answered as `one_thread` answers them.
pub fn top<
    R: Threads + Wait + RandomSource + AllocGlobal + Sync,
    F: Files,
    O: Sink,
    E: Sink,
    G: Gate + Sync,
>(
    rt: &R,
    alloc: Global,
    words: &[String],
    files: &mut F,
    out: &mut O,
    err: &mut E,
    lib: &Library,
    gate: &G,
) -> u8
    ensures answered { IsTopAnswered (library_of lib.now) (words_of words.now) (reading_of F.content F.faults files.old files.new)
        (writing_of O.written O.faults out.old out.new) (writing_of E.written E.faults err.old err.new) result }
{
    words_have_the_listed_forms();
    match threaded_of(read_form(words)) {
        Some(Threaded::Run(workers)) => {
            answer_run(rt, alloc, words, files, out, err, workers, lib, gate)
        }
        Some(Threaded::Trace(workers)) => {
            answer_trace(rt, alloc, words, files, out, err, workers, lib, gate)
        }
        Some(Threaded::Load(seed, count, workers)) => answer_load(
            rt, alloc, words, files, out, err, seed, count, workers, lib, gate,
        ),
        Some(Threaded::Live(workers)) => {
            answer_live(rt, alloc, words, files, out, err, workers, lib, gate)
        }
        None => one_thread(alloc, words, files, out, err, lib),
    }
}
