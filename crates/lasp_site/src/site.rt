//! The call: words, graph, script, state, files, updates, and the state after them.

ghost use Rattle.std.specs.Prelude.{◌≡◌, ◌<◌, ◌-◌, None, length};
ghost use Rattle.std.specs.Arc.{arc_value};
ghost use Rattle.model_readings.specs.Lawful.{IsGraph, FitsAll};
ghost use Rattle.model_world.specs.Lawful.{opening_stage, AreLawful, IsLawful, IsWithinLimits};
ghost use Rattle.model_world.specs.World.{fresh_peer};
ghost use Rattle.model_program.specs.Call.{AreUnchanged, AreLater, seen, reading_of, writing_of};
ghost use Rattle.model_site.specs.Call.{IsAnswered};
ghost use Rattle.model_site.specs.Follows.{Follows, Gives};
ghost use Rattle.model_site.specs.Plan.{given};
ghost use Rattle.model_site.specs.Program.{site_of, opening, is_for, filing_more, taking_in, scripted, plan, site_answer};
ghost use Rattle.model_site.specs.Site.{AreOwn};
ghost use Rattle.lasp_graph.specs.Library.{library_of};
ghost use Rattle.lasp_site.specs.Site.{IsSiteNode};
ghost use Rattle.lasp_call.specs.Words.{words_of};
ghost use Rattle.lasp_site.specs.Failure.{answered};

use crate::ending::end;
use crate::open::{open_graph, open_script, shared};
use crate::own::check_own;
use crate::state::{take_files, take_state};
use crate::update::{do_commands, settled_state};
use crate::words::site_of;
use lasp_drive::{FreshNode, Node};
use lasp_edge::{Files, Sink};
use lasp_fns::Library;
use lasp_graph::Graph;
use lasp_node::CoreNode;
use lasp_script::Script;
use model_program::Refusal;
use model_site::SiteFailure;
use std::alloc::Global;
use std::sync::Arc;

/// The state of a node that has taken in what it is to take in, after the updates of its script.
fn updated_state<N: Node>(
    alloc: Global,
    graph: &Graph,
    me: u8,
    node: N,
    script: &Script,
    lib: &Library,
) -> Result<Vec<u8>, SiteFailure>
    requires node { IsSiteNode me graph.now (N.view node) }
    requires graph { IsGraph graph.now }
    requires fits { FitsAll (library_of lib.now) graph.now }
    requires own { AreOwn me script.now.commands }
    requires lawful { AreLawful (N.view node).among (opening_stage graph.now) script.now.commands }
    requires few { length script.now.commands < 100000 }
    ensures { Gives (λ bytes. bytes.items) (site_answer me graph.now script.now (N.view node).peer) result }
{
    let number = script.len() as u32 + 1;
    match do_commands(alloc, graph, me, node, script) {
        Ok(node) => settled_state(alloc, graph, me, number, node, lib),
        Err(failure) => Err(failure),
    }
}

/// The state of a site that has taken in its own last state: it takes in those of the files, and makes its updates.
fn take_rest<N: Node, F: Files>(
    alloc: Global,
    words: &[String],
    graph: &Graph,
    me: u8,
    node: N,
    script: &Script,
    files: &mut F,
    lib: &Library,
) -> Result<Vec<u8>, SiteFailure>
    requires words { 3 < length words.now }
    requires most { length words.now < 13 }
    requires node { IsSiteNode me graph.now (N.view node) }
    requires graph { IsGraph graph.now }
    requires fits { FitsAll (library_of lib.now) graph.now }
    requires own { AreOwn me script.now.commands }
    requires lawful { AreLawful (N.view node).among (opening_stage graph.now) script.now.commands }
    requires few { length script.now.commands < 100000 }
    ensures same { AreUnchanged F.content files.old files.new }
    ensures later { AreLater F.faults files.old files.new }
    ensures follows { Follows (words_of words.now) (seen F.content F.faults files.old files.new) (filing_more me graph.now script.now 4 (length words.now - 4) (N.view node).peer) (answered result) }
{
    match take_files(alloc, words, graph, me, node, files) {
        Ok(node) => updated_state(alloc, graph, me, node, script, lib),
        Err(failure) => Err(failure),
    }
}

/// The state of a site whose node nothing has happened to: it takes in its own last state, and goes on.
fn take_all<N: Node, F: Files>(
    alloc: Global,
    words: &[String],
    graph: &Graph,
    me: u8,
    fresh: N,
    script: &Script,
    files: &mut F,
    lib: &Library,
) -> Result<Vec<u8>, SiteFailure>
    requires words { 3 < length words.now }
    requires most { length words.now < 13 }
    requires node { IsSiteNode me graph.now (N.view fresh) }
    requires fresh { (N.view fresh).peer ≡ fresh_peer graph.now (N.view fresh).among }
    requires among { (N.view fresh).among ≡ script.now.nodes }
    requires graph { IsGraph graph.now }
    requires fits { FitsAll (library_of lib.now) graph.now }
    requires own { AreOwn me script.now.commands }
    requires lawful { AreLawful script.now.nodes (opening_stage graph.now) script.now.commands }
    requires few { length script.now.commands < 100000 }
    ensures same { AreUnchanged F.content files.old files.new }
    ensures later { AreLater F.faults files.old files.new }
    ensures follows { Follows (words_of words.now) (seen F.content F.faults files.old files.new) (taking_in me graph.now script.now (length words.now - 4)) (answered result) }
{
    match take_state(alloc, words, graph, me, fresh, files) {
        Ok(node) => take_rest(alloc, words, graph, me, node, script, files, lib),
        Err(failure) => Err(failure),
    }
}

/// The state of a site whose script is its own: it takes in its own last state and those of the files, and makes its updates.
fn take_in<F: Files>(
    alloc: Global,
    words: &[String],
    graph: &Arc<Graph>,
    me: u8,
    script: &Script,
    files: &mut F,
    lib: &Library,
) -> Result<Vec<u8>, SiteFailure>
    requires words { 3 < length words.now }
    requires most { length words.now < 13 }
    requires graph { IsGraph (arc_value graph.now) }
    requires fits { FitsAll (library_of lib.now) (arc_value graph.now) }
    requires lawful { IsLawful (arc_value graph.now) script.now }
    requires limits { IsWithinLimits script.now }
    requires member { me < script.now.nodes }
    requires own { AreOwn me script.now.commands }
    ensures same { AreUnchanged F.content files.old files.new }
    ensures later { AreLater F.faults files.old files.new }
    ensures follows { Follows (words_of words.now) (seen F.content F.faults files.old files.new) (taking_in me (arc_value graph.now) script.now (length words.now - 4)) (answered result) }
{
    match CoreNode::new(alloc, graph, me, script.nodes()) {
        Ok(fresh) => take_all(alloc, words, graph, me, fresh, script, files, lib),
        Err(_) => Err(SiteFailure::Memory),
    }
}

/// The same, once the script is read.
fn run_script<F: Files>(
    alloc: Global,
    words: &[String],
    graph: &Arc<Graph>,
    me: u8,
    script: &Script,
    files: &mut F,
    lib: &Library,
) -> Result<Vec<u8>, SiteFailure>
    requires words { 3 < length words.now }
    requires most { length words.now < 13 }
    requires graph { IsGraph (arc_value graph.now) }
    requires fits { FitsAll (library_of lib.now) (arc_value graph.now) }
    requires lawful { IsLawful (arc_value graph.now) script.now }
    requires limits { IsWithinLimits script.now }
    ensures same { AreUnchanged F.content files.old files.new }
    ensures later { AreLater F.faults files.old files.new }
    ensures follows { Follows (words_of words.now) (seen F.content F.faults files.old files.new) (given (is_for me script.now) (λ u. taking_in me (arc_value graph.now) script.now (length words.now - 4))) (answered result) }
{
    match check_own(me, script) {
        Ok(()) => take_in(alloc, words, graph, me, script, files, lib),
        Err(failure) => Err(failure),
    }
}

/// The same, once the graph is read.
fn run_site<F: Files>(
    alloc: Global,
    words: &[String],
    graph: &Arc<Graph>,
    me: u8,
    files: &mut F,
    lib: &Library,
) -> Result<Vec<u8>, SiteFailure>
    requires words { 3 < length words.now }
    requires most { length words.now < 13 }
    requires graph { IsGraph (arc_value graph.now) }
    requires fits { FitsAll (library_of lib.now) (arc_value graph.now) }
    ensures same { AreUnchanged F.content files.old files.new }
    ensures later { AreLater F.faults files.old files.new }
    ensures follows { Follows (words_of words.now) (seen F.content F.faults files.old files.new) (scripted (library_of lib.now) me (length words.now - 4) (arc_value graph.now)) (answered result) }
{
    match open_script(alloc, words, graph, files, lib) {
        Ok(script) => run_script(alloc, words, graph, me, &script, files, lib),
        Err(failure) => Err(failure),
    }
}

/// The same, once the words are of the listed form.
fn run_words<F: Files>(
    alloc: Global,
    words: &[String],
    me: u8,
    files: &mut F,
    lib: &Library,
) -> Result<Vec<u8>, SiteFailure>
    requires words { 3 < length words.now }
    requires most { length words.now < 13 }
    ensures same { AreUnchanged F.content files.old files.new }
    ensures later { AreLater F.faults files.old files.new }
    ensures follows { Follows (words_of words.now) (seen F.content F.faults files.old files.new) (opening (library_of lib.now) (scripted (library_of lib.now) me (length words.now - 4))) (answered result) }
{
    match open_graph(alloc, words, files, lib) {
        Ok(graph) => run_site(alloc, words, &graph, me, files, lib),
        Err(failure) => Err(failure),
    }
}

/// What a site's words come to: a state to write, or why there is none.
fn answer<F: Files>(
    alloc: Global,
    words: &[String],
    files: &mut F,
    lib: &Library,
) -> Result<Vec<u8>, SiteFailure>
    ensures same { AreUnchanged F.content files.old files.new }
    ensures unread { site_of (words_of words.now) ≡ None → files.new ≡ files.old }
    ensures later { AreLater F.faults files.old files.new }
    ensures follows { Follows (words_of words.now) (seen F.content F.faults files.old files.new) (plan (library_of lib.now) (words_of words.now)) (answered result) }
{
    match site_of(words) {
        Some(me) => run_words(alloc, words, me, files, lib),
        None => Err(shared(Refusal::Usage)),
    }
}

/// A site, called with GRAPH, NODE, STATE, SCRIPT and the names of 0 to 8 files. It opens replica NODE of the script's number of nodes, takes in the state of
/// the file STATE (one without bytes is a replica to which nothing has happened) and those of the files, in their order, makes the updates of the script,
/// which has updates of NODE alone, settles, and writes the replica's new state to `out`: the bytes of a message, which go on as STATE, as the file of
/// another site, or to `merge`. The functions that a graph names are the library's.
///
/// It answers the exit status: 0 done, 1 usage, 2 graph refused, 3 script refused or another's, 4 a file can't be read or is too long, 5 `out` can't be written,
/// 6 a variable passes 65,536 rows or elements, or the updates of the replica pass 100,000, 7 out of memory, 9 a state can't be taken in. With another status than 0, `err` gets one line.
pub fn answer_site<F: Files, O: Sink, E: Sink>(
    alloc: Global,
    words: &[String],
    files: &mut F,
    out: &mut O,
    err: &mut E,
    lib: &Library,
) -> u8
    ensures answered { IsAnswered (library_of lib.now) (words_of words.now) (reading_of F.content F.faults files.old files.new)
        (writing_of O.written O.faults out.old out.new) (writing_of E.written E.faults err.old err.new) result }
{
    let state = answer(alloc, words, files, lib);
    end(words, state, out, err)
}
