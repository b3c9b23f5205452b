//! The files of a site: its graph, its script, and the states that it takes in. They are opened as those of `lasp`, whose refusals are a site's too.

ghost use Rattle.std.specs.Prelude.{◌≡◌, ◌<◌, length, IfOk};
ghost use Rattle.std.specs.Arc.{arc_value};
ghost use Rattle.model_readings.specs.Lawful.{IsGraph, FitsAll};
ghost use Rattle.model_world.specs.Lawful.{IsLawful, IsWithinLimits};
ghost use Rattle.model_program.specs.Call.{AreUnchanged, AreLater, seen};
ghost use Rattle.model_site.specs.Plan.{reading};
ghost use Rattle.model_site.specs.Follows.{Performs};
ghost use Rattle.model_site.specs.Program.{opening, scripting};
ghost use Rattle.lasp_graph.specs.Library.{library_of};
ghost use Rattle.lasp_call.specs.Words.{words_of};
ghost use Rattle.lasp_site.specs.Failure.{as_site};

use lasp_edge::Files;
use lasp_fns::Library;
use lasp_graph::Graph;
use lasp_script::Script;
use model_program::{Failure, Refusal};
use model_site::{SiteFailure, SiteRefusal};
use std::alloc::Global;
use std::sync::Arc;

/// What a site refuses as `lasp` does.
pub(crate) fn shared(refusal: Refusal) -> SiteFailure
    ensures { result ≡ SiteFailure.Refused (SiteRefusal.Shared refusal) }
{
    SiteFailure::Refused(SiteRefusal::Shared(refusal))
}

/// A failure of what both programs do, as a site's.
pub(crate) fn shared_failure(failure: Failure) -> SiteFailure
    ensures { result ≡ as_site failure }
{
    match failure {
        Failure::Refused(refusal) => shared(refusal),
        Failure::ReadFault(file) => SiteFailure::ReadFault(file),
        Failure::Memory => SiteFailure::Memory,
    }
}

/// Reads the file that a word names.
pub(crate) fn read_file<F: Files>(
    alloc: Global,
    words: &[String],
    file: usize,
    files: &mut F,
) -> Result<Vec<u8>, SiteFailure>
    requires { file < length words.now }
    ensures same { AreUnchanged F.content files.old files.new }
    ensures later { AreLater F.faults files.old files.new }
    ensures part { Performs (λ bytes. bytes.items) (words_of words.now) (seen F.content F.faults files.old files.new) (reading file) result }
{
    match lasp_call::read_file(alloc, words, file, files) {
        Ok(bytes) => Ok(bytes),
        Err(failure) => Err(shared_failure(failure)),
    }
}

/// Reads the graph, whose functions are the library's: the first word's file.
pub(crate) fn open_graph<F: Files>(
    alloc: Global,
    words: &[String],
    files: &mut F,
    lib: &Library,
) -> Result<Arc<Graph>, SiteFailure>
    requires { 3 < length words.now }
    ensures same { AreUnchanged F.content files.old files.new }
    ensures later { AreLater F.faults files.old files.new }
    ensures part { Performs arc_value (words_of words.now) (seen F.content F.faults files.old files.new) (opening (library_of lib.now)) result }
    ensures graph { IfOk result (λ g. IsGraph (arc_value g)) }
    ensures fits { IfOk result (λ g. FitsAll (library_of lib.now) (arc_value g)) }
{
    match lasp_call::open_graph(alloc, words, 0, files, lib) {
        Ok(graph) => Ok(graph),
        Err(failure) => Err(shared_failure(failure)),
    }
}

/// Reads the script against the graph: the fourth word's file.
pub(crate) fn open_script<F: Files>(
    alloc: Global,
    words: &[String],
    graph: &Graph,
    files: &mut F,
    lib: &Library,
) -> Result<Script, SiteFailure>
    requires words { 3 < length words.now }
    requires fits { FitsAll (library_of lib.now) graph.now }
    ensures same { AreUnchanged F.content files.old files.new }
    ensures later { AreLater F.faults files.old files.new }
    ensures part { Performs (λ s. s) (words_of words.now) (seen F.content F.faults files.old files.new) (scripting (library_of lib.now) graph.now) result }
    ensures lawful { IfOk result (λ s. IsLawful graph.now s) }
    ensures limits { IfOk result (λ s. IsWithinLimits s) }
{
    match lasp_call::open_script(alloc, words, 3, graph, files, lib) {
        Ok(script) => Ok(script),
        Err(failure) => Err(shared_failure(failure)),
    }
}
