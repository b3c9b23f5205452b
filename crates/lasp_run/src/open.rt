//! The files of the program: the graph, the script against it, and any other.

ghost use Rattle.std.specs.Prelude.{◌<◌, length, IfOk};
ghost use Rattle.lasp_run.specs.Prelude.{arc_value, FitsAll, reading, Performs, opening, scripting, AreUnchanged, AreLater, seen, library_of, IsRunnable, opened_of, opening_run, words_of};

use lasp_edge::Files;
use lasp_fns::Library;
use lasp_graph::Graph;
use lasp_script::Script;
use model_program::Failure;
use std::alloc::Global;
use std::sync::Arc;

/// Reads the file that a word names.
pub(crate) fn read_file<F: Files>(
    alloc: Global,
    words: &[String],
    file: usize,
    files: &mut F,
) -> Result<Vec<u8>, Failure>
    requires { file < length words.now }
    ensures same { AreUnchanged F.content files.old files.new }
    ensures later { AreLater F.faults files.old files.new }
    ensures part { Performs (λ bytes. bytes.items) (words_of words.now) (seen F.content F.faults files.old files.new) (reading file) result }
{
    lasp_call::read_file(alloc, words, file, files)
}

/// Reads the graph, whose functions are the library's: the second word's file.
pub(crate) fn open_graph<F: Files>(
    alloc: Global,
    words: &[String],
    files: &mut F,
    lib: &Library,
) -> Result<Arc<Graph>, Failure>
    requires { 1 < length words.now }
    ensures same { AreUnchanged F.content files.old files.new }
    ensures later { AreLater F.faults files.old files.new }
    ensures part { Performs arc_value (words_of words.now) (seen F.content F.faults files.old files.new) (opening (library_of lib.now)) result }
    ensures fits { IfOk result (λ g. FitsAll (library_of lib.now) (arc_value g)) }
{
    lasp_call::open_graph(alloc, words, 1, files, lib)
}

/// Reads the script against the graph: the third word's file.
fn open_script<F: Files>(
    alloc: Global,
    words: &[String],
    graph: &Graph,
    files: &mut F,
    lib: &Library,
) -> Result<Script, Failure>
    requires words { 2 < length words.now }
    requires fits { FitsAll (library_of lib.now) graph.now }
    ensures same { AreUnchanged F.content files.old files.new }
    ensures later { AreLater F.faults files.old files.new }
    ensures part { Performs (λ s. s) (words_of words.now) (seen F.content F.faults files.old files.new) (scripting (library_of lib.now) graph.now) result }
    ensures runnable { IfOk result (λ s. IsRunnable (library_of lib.now) graph.now s) }
{
    lasp_call::open_script(alloc, words, 2, graph, files, lib)
}

/// A graph and a script that was read against it.
#[derive(Drop)]
pub struct Opened {
    /// The graph.
    pub graph: Arc<Graph>,
    /// The script.
    pub script: Script,
}

/// Reads the graph, and the script against it: the files of the second and the third word.
pub fn open_run<F: Files>(
    alloc: Global,
    words: &[String],
    files: &mut F,
    lib: &Library,
) -> Result<Opened, Failure>
    requires { 2 < length words.now }
    ensures same { AreUnchanged F.content files.old files.new }
    ensures later { AreLater F.faults files.old files.new }
    ensures part { Performs opened_of (words_of words.now) (seen F.content F.faults files.old files.new) (opening_run (library_of lib.now)) result }
    ensures runnable { IfOk result (λ o. IsRunnable (library_of lib.now) (arc_value o.graph) o.script) }
{
    match open_graph(alloc, words, files, lib) {
        Ok(graph) => match open_script(alloc, words, &graph, files, lib) {
            Ok(script) => Ok(Opened { graph, script }),
            Err(failure) => Err(failure),
        },
        Err(failure) => Err(failure),
    }
}
