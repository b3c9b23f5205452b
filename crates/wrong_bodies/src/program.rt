//! The program on one thread.

ghost use Rattle.lasp_graph.specs.Library.{library_of};
ghost use Rattle.model_program.specs.Call.{reading_of, writing_of, IsAnswered};
ghost use Rattle.lasp_call.specs.Words.{words_of};

use lasp_edge::{Files, Sink};
use lasp_fns::Library;
use lasp_run::one_thread;
use std::alloc::Global;

/// `lasp_run::one_thread`.
pub fn run<F: Files, O: Sink, E: Sink>(
    alloc: Global,
    words: &[String],
    files: &mut F,
    out: &mut O,
    err: &mut E,
    lib: &Library,
) -> u8
    ensures answered { IsAnswered (library_of lib.now) (words_of words.now) (reading_of F.content F.faults files.old files.new)
        (writing_of O.written O.faults out.old out.new) (writing_of E.written E.faults err.old err.new) result }
{
    one_thread(alloc, words, files, out, err, lib)
}
