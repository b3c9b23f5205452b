//! The files that words name: read, and the graph and the script of their bytes.

ghost use Rattle.std.specs.Prelude.{◌≡◌, ◌<◌, Ok, length, IfOk};
ghost use Rattle.lasp_call.specs.Prelude.{arc_value, refusing, graph_of, IsGraph, FitsAll, script_of, Gives, graph_refused, script_refused, AreUnchanged, AreLater, seen, library_of, IsRunnable, Opens, words_of};

use crate::words::name_of;
use lasp_edge::{Fetch, Files};
use lasp_fns::Library;
use lasp_graph::{Graph, GraphRefused, read_graph};
use lasp_script::{Script, ScriptRefused, read_script};
use model_program::{Failure, Refusal};
use model_readings::accepted_graphs_are_lawful;
use std::alloc::Global;
use std::sync::Arc;

/// The most bytes that a file may have.
const FILE_LIMIT: u64 = 16_777_216;

/// Reads the file that a word names.
pub fn read_file<F: Files>(
    alloc: Global,
    words: &[String],
    file: usize,
    files: &mut F,
) -> Result<Vec<u8>, Failure>
    requires { file < length words.now }
    ensures same { AreUnchanged F.content files.old files.new }
    ensures later { AreLater F.faults files.old files.new }
    ensures opens { Opens (λ bytes. bytes.items) (words_of words.now) (seen F.content F.faults files.old files.new) file (λ bytes. Ok bytes) result }
{
    match files.fetch(alloc, name_of(words, file), FILE_LIMIT) {
        Ok(bytes) => Ok(bytes),
        Err(Fetch::Failed) => Err(Failure::ReadFault(file)),
        Err(Fetch::TooLong) => Err(Failure::Refused(Refusal::TooLong(file))),
        Err(Fetch::Memory) => Err(Failure::Memory),
    }
}

/// The graph of a text's bytes, whose functions are the library's.
pub fn graph_from(alloc: Global, bytes: &[u8], lib: &Library) -> Result<Arc<Graph>, Failure>
    ensures exact { Gives arc_value (refusing graph_refused (graph_of (library_of lib.now) bytes.now)) result }
    ensures graph { IfOk result (λ g. IsGraph (arc_value g)) }
    ensures fits { IfOk result (λ g. FitsAll (library_of lib.now) (arc_value g)) }
{
    accepted_graphs_are_lawful();
    match read_graph(alloc, bytes, lib) {
        Ok(graph) => match Arc::new(alloc, graph) {
            Ok(graph) => Ok(graph),
            Err(_) => Err(Failure::Memory),
        },
        Err(GraphRefused::At { number, why }) => Err(Failure::Refused(Refusal::Graph(number, why))),
        Err(GraphRefused::Memory) => Err(Failure::Memory),
    }
}

/// The script of a text's bytes, against the graph.
pub fn script_from(
    alloc: Global,
    graph: &Graph,
    bytes: &[u8],
    lib: &Library,
) -> Result<Script, Failure>
    requires fits { FitsAll (library_of lib.now) graph.now }
    ensures exact { Gives (λ s. s) (refusing script_refused (script_of (library_of lib.now) graph.now bytes.now)) result }
    ensures runnable { IfOk result (λ s. IsRunnable (library_of lib.now) graph.now s) }
{
    match read_script(alloc, bytes, graph, lib) {
        Ok(script) => Ok(script),
        Err(ScriptRefused::At { number, why }) => Err(Failure::Refused(Refusal::Script(
            number, why,
        ))),
        Err(ScriptRefused::Memory) => Err(Failure::Memory),
    }
}

/// Reads the graph that a word names, whose functions are the library's.
pub fn open_graph<F: Files>(
    alloc: Global,
    words: &[String],
    file: usize,
    files: &mut F,
    lib: &Library,
) -> Result<Arc<Graph>, Failure>
    requires { file < length words.now }
    ensures same { AreUnchanged F.content files.old files.new }
    ensures later { AreLater F.faults files.old files.new }
    ensures opens { Opens arc_value (words_of words.now) (seen F.content F.faults files.old files.new) file (λ bytes. refusing graph_refused (graph_of (library_of lib.now) bytes)) result }
    ensures graph { IfOk result (λ g. IsGraph (arc_value g)) }
    ensures fits { IfOk result (λ g. FitsAll (library_of lib.now) (arc_value g)) }
{
    match read_file(alloc, words, file, files) {
        Ok(bytes) => graph_from(alloc, &bytes, lib),
        Err(failure) => Err(failure),
    }
}

/// Reads the script that a word names, against the graph.
pub fn open_script<F: Files>(
    alloc: Global,
    words: &[String],
    file: usize,
    graph: &Graph,
    files: &mut F,
    lib: &Library,
) -> Result<Script, Failure>
    requires word { file < length words.now }
    requires fits { FitsAll (library_of lib.now) graph.now }
    ensures same { AreUnchanged F.content files.old files.new }
    ensures later { AreLater F.faults files.old files.new }
    ensures opens { Opens (λ s. s) (words_of words.now) (seen F.content F.faults files.old files.new) file (λ bytes. refusing script_refused (script_of (library_of lib.now) graph.now bytes)) result }
    ensures runnable { IfOk result (λ s. IsRunnable (library_of lib.now) graph.now s) }
{
    match read_file(alloc, words, file, files) {
        Ok(bytes) => script_from(alloc, graph, &bytes, lib),
        Err(failure) => Err(failure),
    }
}
