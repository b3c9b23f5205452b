//! The states that a site takes in: its own last one, and those of others.

ghost use Rattle.std.specs.Prelude.{◌≡◌, ◌<◌, ◌-◌, IfOk, length, true};
ghost use Rattle.std.specs.Arc.{arc_value};
ghost use Rattle.model_graph.specs.Graph.{name_at};
ghost use Rattle.model_wire.specs.Lawful.{IsMessage};
ghost use Rattle.model_world.specs.Command.{Script};
ghost use Rattle.model_world.specs.World.{fresh_peer};
ghost use Rattle.model_program.specs.Merge.{may_take};
ghost use Rattle.model_program.specs.Call.{AreUnchanged, AreLater, seen};
ghost use Rattle.model_site.specs.Follows.{Gives, Performs};
ghost use Rattle.model_site.specs.Plan.{Says};
ghost use Rattle.model_site.specs.Program.{stating, filing, filing_more, site_answer};
ghost use Rattle.model_site.specs.Site.{message_taken, file_taken, state_taken};
ghost use Rattle.model_site.specs.declared.site_refusal.SiteRefusal.TheVariants as refusal;
ghost use Rattle.lasp_call.specs.Message.{peer_by};
ghost use Rattle.lasp_site.specs.Failure.{IsRefusal};
ghost use Rattle.lasp_site.specs.Site.{IsSiteNode, ComesTo};
ghost use Rattle.lasp_call.specs.Words.{words_of};

use crate::open::{read_file, shared, shared_failure};
use lasp_call::{may_take, read_message};
use lasp_drive::{Node, NodeStop};
use lasp_edge::Files;
use lasp_graph::Graph;
use lasp_wire::Message;
use model_program::{Refusal, StateWhy};
use model_site::{SiteFailure, SiteRefusal};
use std::alloc::Global;
use std::sync::Arc;

/// The refusal of a file with whose state a variable is too large.
fn too_large(graph: &Graph, file: usize, me: u8, var: u8) -> SiteFailure
    requires { var < length graph.now }
    ensures { IsRefusal (refusal.FileTooLarge file me (name_at graph.now var)) result }
{
    match graph.at(u64::from(var)).name.try_clone() {
        Ok(name) => SiteFailure::Refused(SiteRefusal::FileTooLarge(file, me, name)),
        Err(_) => SiteFailure::Memory,
    }
}

/// The node after a message that it may take.
#[tactic(auto, using(crate::proofs::StateLaws::nodes))]
fn take<N: Node>(
    alloc: Global,
    graph: &Graph,
    me: u8,
    file: usize,
    mut node: N,
    message: &Arc<Message>,
) -> Result<N, SiteFailure>
    requires most { file < 13 }
    requires node { IsSiteNode me graph.now (N.view node) }
    requires message { IsMessage (arc_value message.now) }
    requires taken { may_take graph.now (N.view node).peer (arc_value message.now) ≡ true }
    ensures exact { Gives (peer_by N.view) (message_taken me graph.now file (N.view node).peer (arc_value message.now)) result }
    ensures node { IfOk result (λ n. IsSiteNode me graph.now (N.view n)) }
    ensures among { IfOk result (λ n. (N.view n).among ≡ (N.view node).among) }
{
    match node.deliver(alloc, file as u32, message, message) {
        Ok(()) => Ok(node),
        Err(NodeStop::TooLarge(var)) => Err(too_large(graph, file, me, var)),
        Err(NodeStop::Memory) => Err(SiteFailure::Memory),
    }
}

/// The node after a message.
#[tactic(auto, using(crate::proofs::StateLaws::nodes))]
fn take_message<N: Node>(
    alloc: Global,
    graph: &Graph,
    me: u8,
    file: usize,
    mut node: N,
    message: &Arc<Message>,
) -> Result<N, SiteFailure>
    requires most { file < 13 }
    requires node { IsSiteNode me graph.now (N.view node) }
    requires message { IsMessage (arc_value message.now) }
    ensures exact { Gives (peer_by N.view) (message_taken me graph.now file (N.view node).peer (arc_value message.now)) result }
    ensures node { IfOk result (λ n. IsSiteNode me graph.now (N.view n)) }
    ensures among { IfOk result (λ n. (N.view n).among ≡ (N.view node).among) }
{
    match may_take(alloc, graph, &mut node, message) {
        Ok(true) => take(alloc, graph, me, file, node, message),
        Ok(false) => Err(shared(Refusal::State(file, 0, StateWhy::WrongGraph))),
        Err(_) => Err(SiteFailure::Memory),
    }
}

/// The node after the bytes of a file.
fn take_bytes<N: Node>(
    alloc: Global,
    graph: &Graph,
    me: u8,
    file: usize,
    node: N,
    bytes: &[u8],
) -> Result<N, SiteFailure>
    requires most { file < 13 }
    requires node { IsSiteNode me graph.now (N.view node) }
    ensures exact { Gives (peer_by N.view) (file_taken me graph.now file (N.view node).peer bytes.now) result }
    ensures node { IfOk result (λ n. IsSiteNode me graph.now (N.view n)) }
    ensures among { IfOk result (λ n. (N.view n).among ≡ (N.view node).among) }
{
    match read_message(alloc, file, bytes) {
        Ok(message) => take_message(alloc, graph, me, file, node, &message),
        Err(failure) => Err(shared_failure(failure)),
    }
}

/// The node after the site's own last state. A file without bytes leaves it as it is.
fn take_own<N: Node>(
    alloc: Global,
    graph: &Graph,
    me: u8,
    file: usize,
    node: N,
    bytes: &[u8],
) -> Result<N, SiteFailure>
    requires most { file < 13 }
    requires node { IsSiteNode me graph.now (N.view node) }
    ensures exact { Gives (peer_by N.view) (state_taken me graph.now file (N.view node).peer bytes.now) result }
    ensures node { IfOk result (λ n. IsSiteNode me graph.now (N.view n)) }
    ensures among { IfOk result (λ n. (N.view n).among ≡ (N.view node).among) }
{
    if bytes.is_empty() {
        return Ok(node);
    }
    take_bytes(alloc, graph, me, file, node, bytes)
}

/// Reads the site's own last state, and takes it in: the third word's file.
pub(crate) fn take_state<N: Node, F: Files>(
    alloc: Global,
    words: &[String],
    graph: &Graph,
    me: u8,
    node: N,
    files: &mut F,
) -> Result<N, SiteFailure>
    requires words { 3 < length words.now }
    requires node { IsSiteNode me graph.now (N.view node) }
    requires fresh { (N.view node).peer ≡ fresh_peer graph.now (N.view node).among }
    ensures same { AreUnchanged F.content files.old files.new }
    ensures later { AreLater F.faults files.old files.new }
    ensures part { Performs (peer_by N.view) (words_of words.now) (seen F.content F.faults files.old files.new) (stating me graph.now (N.view node).among) result }
    ensures node { IfOk result (λ n. IsSiteNode me graph.now (N.view n)) }
    ensures among { IfOk result (λ n. (N.view n).among ≡ (N.view node).among) }
{
    match read_file(alloc, words, 2, files) {
        Ok(bytes) => take_own(alloc, graph, me, 2, node, &bytes),
        Err(failure) => Err(failure),
    }
}

/// Reads one state more, and takes it in.
fn take_file<N: Node, F: Files>(
    alloc: Global,
    words: &[String],
    graph: &Graph,
    me: u8,
    file: usize,
    node: N,
    files: &mut F,
) -> Result<N, SiteFailure>
    requires word { file < length words.now }
    requires most { file < 13 }
    requires node { IsSiteNode me graph.now (N.view node) }
    ensures same { AreUnchanged F.content files.old files.new }
    ensures later { AreLater F.faults files.old files.new }
    ensures part { Performs (peer_by N.view) (words_of words.now) (seen F.content F.faults files.old files.new) (filing me graph.now file (N.view node).peer) result }
    ensures node { IfOk result (λ n. IsSiteNode me graph.now (N.view n)) }
    ensures among { IfOk result (λ n. (N.view n).among ≡ (N.view node).among) }
{
    match read_file(alloc, words, file, files) {
        Ok(bytes) => take_bytes(alloc, graph, me, file, node, &bytes),
        Err(failure) => Err(failure),
    }
}

/// The node after the states of all files, the first of which is the fifth word's. What comes after them are the updates of the script.
pub(crate) fn take_files<N: Node, F: Files>(
    alloc: Global,
    words: &[String],
    graph: &Graph,
    me: u8,
    first: N,
    files: &mut F,
) -> Result<N, SiteFailure>
    requires words { 3 < length words.now }
    requires most { length words.now < 13 }
    requires node { IsSiteNode me graph.now (N.view first) }
    ensures same { AreUnchanged F.content files.old files.new }
    ensures later { AreLater F.faults files.old files.new }
    ensures rest { (s : Script) → ComesTo (peer_by N.view) (words_of words.now) (seen F.content F.faults files.old files.new) (filing_more me graph.now s 4 (length words.now - 4) (N.view first).peer) (λ r. Says (site_answer me graph.now s r)) result }
    ensures node { IfOk result (λ n. IsSiteNode me graph.now (N.view n)) }
    ensures among { IfOk result (λ n. (N.view n).among ≡ (N.view first).among) }
{
    let mut node = first;
    for file in 4..words.len() {
        match take_file(alloc, words, graph, me, file, node, files) {
            Ok(next) => node = next,
            Err(failure) => return Err(failure),
        }
    }
    Ok(node)
}
