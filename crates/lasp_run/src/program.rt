//! The program on one thread.

ghost use Rattle.std.specs.Prelude.{◌≡◌};
ghost use Rattle.lasp_run.specs.Prelude.{AreUnchanged, AreLater, seen, reading_of, writing_of, IsAnswered, Follows, form, plan, IsUsageForm, library_of, words_of, answered};

use crate::check::run_check;
use crate::deltas::run_deltas;
use crate::dots::answer_dots;
use crate::form::read_form;
use crate::merge::run_merge;
use crate::run::{run_export, run_plain};
use lasp_call::end;
use lasp_edge::{Files, Sink};
use lasp_fns::Library;
use lasp_node::CoreNode;
use model_program::{Failure, Form, Refusal};
use std::alloc::Global;

/// What the program's words come to: a text to write, or why there is none.
fn answer<F: Files>(
    alloc: Global,
    words: &[String],
    files: &mut F,
    lib: &Library,
) -> Result<Vec<u8>, Failure>
    ensures same { AreUnchanged F.content files.old files.new }
    ensures unread { IsUsageForm (form (words_of words.now)) → files.new ≡ files.old }
    ensures later { AreLater F.faults files.old files.new }
    ensures follows { Follows (words_of words.now) (seen F.content F.faults files.old files.new) (plan (library_of lib.now) (words_of words.now)) (answered result) }
{
    match read_form(words) {
        Form::Plain => run_plain::<CoreNode, F>(alloc, words, files, lib),
        Form::Delta => run_deltas::<CoreNode, F>(alloc, words, files, lib),
        Form::Check => run_check(alloc, words, files, lib),
        Form::Dots => answer_dots(alloc, words, files, lib),
        Form::Export(node) => run_export::<CoreNode, F>(alloc, words, node, files, lib),
        Form::Merge => run_merge::<CoreNode, F>(alloc, words, files, lib),
        Form::Threaded(_) => Err(Failure::Refused(Refusal::Usage)),
        Form::Wrong => Err(Failure::Refused(Refusal::Usage)),
    }
}

/// The program on one thread. `plain GRAPH SCRIPT` reads both files, runs the script and writes its report to `out`. `delta GRAPH SCRIPT` does the same with messages that travel as deltas,
/// and writes behind the report how they did. `export GRAPH SCRIPT NODE` does as `plain`,
/// but writes what the node would send at the end. `merge GRAPH FILE ..` reads the graph and 1 to 8 such files, and writes what its variables show of all of them.
/// `check GRAPH` reads the graph alone and writes `NAME KIND WIDTH` for each of its variables. `dots SCRIPT` reads the script alone, runs it on replicas of one set without tombstones,
/// and writes the report and how many pairs each keeps. The functions that a graph names are the library's.
///
/// It answers the exit status: 0 done, 1 usage, 2 graph refused, 3 script refused, 4 a file can't be read or is too long, 5 `out` can't be written,
/// 6 a variable passes 65,536 rows or elements or all messages pass 268,435,456 bytes, 7 out of memory, 8 a threshold isn't reached,
/// 9 a file can't be merged. With another status than 0, `err` gets one line.
pub fn one_thread<F: Files, O: Sink, E: Sink>(
    alloc: Global,
    words: &[String],
    files: &mut F,
    out: &mut O,
    err: &mut E,
    lib: &Library,
) -> u8
    ensures answered { IsAnswered (library_of lib.now) (words_of words.now) (reading_of F.content F.faults files.old files.new)
        (writing_of O.written O.faults out.old out.new) (writing_of E.written E.faults err.old err.new) result }
{
    let text = answer(alloc, words, files, lib);
    end(words, text, out, err)
}
