//! The message of a file, joined into the node that has those of the files before it.

ghost use Rattle.std.specs.Prelude.{◌≡◌, ◌<◌, ◌+◌, Some, None, IfOk, length, true};
ghost use Rattle.lasp_run.specs.Prelude.{arc_value, name_at, IsMessage, Gives, may_take, message_joined, file_joined, peer_by, IsReplica, IsRefusal};
ghost use Rattle.model_program.specs.declared.refusal.Refusal.TheVariants as refusal;

use lasp_call::{may_take, read_message};
use lasp_drive::{FreshNode, Node, NodeStop};
use lasp_graph::Graph;
use lasp_wire::Message;
use model_program::{Failure, Refusal, StateWhy};
use std::alloc::Global;
use std::sync::Arc;

/// The place of a file's name among the words, the files being counted from 0.
fn place_of(number: u8) -> usize
    ensures { result ≡ number + 2 }
{
    usize::from(number) + 2
}

/// The refusal of a file, or of what stands after all, where a variable is too large.
pub fn too_large(graph: &Graph, number: u8, var: u8) -> Failure
    requires { var < length graph.now }
    ensures { IsRefusal (refusal.TooLarge number 0 (name_at graph.now var)) result }
{
    lasp_call::too_large(graph, u32::from(number), 0, var)
}

#[tactic(auto, using(crate::proofs::JoinLaws::replicas))]
/// The node after a message that it may take.
fn take<N: Node>(
    alloc: Global,
    graph: &Graph,
    number: u8,
    mut node: N,
    message: &Arc<Message>,
) -> Result<N, Failure>
    requires node { IsReplica graph.now (N.view node) }
    requires message { IsMessage (arc_value message.now) }
    requires taken { may_take graph.now (N.view node).peer (arc_value message.now) ≡ true }
    ensures exact { Gives (peer_by N.view) (message_joined graph.now number (N.view node).peer (arc_value message.now)) result }
    ensures node { IfOk result (λ node. IsReplica graph.now (N.view node)) }
{
    match node.deliver(alloc, u32::from(number), message, message) {
        Ok(()) => Ok(node),
        Err(NodeStop::TooLarge(var)) => Err(too_large(graph, number, var)),
        Err(NodeStop::Memory) => Err(Failure::Memory),
    }
}

#[tactic(auto, using(crate::proofs::JoinLaws::replicas))]
/// The node after a message.
fn join<N: Node>(
    alloc: Global,
    graph: &Graph,
    number: u8,
    mut node: N,
    message: &Arc<Message>,
) -> Result<N, Failure>
    requires node { IsReplica graph.now (N.view node) }
    requires message { IsMessage (arc_value message.now) }
    ensures exact { Gives (peer_by N.view) (message_joined graph.now number (N.view node).peer (arc_value message.now)) result }
    ensures node { IfOk result (λ node. IsReplica graph.now (N.view node)) }
{
    match may_take(alloc, graph, &mut node, message) {
        Ok(true) => take(alloc, graph, number, node, message),
        Ok(false) => Err(Failure::Refused(Refusal::State(
            place_of(number),
            0,
            StateWhy::WrongGraph,
        ))),
        Err(_) => Err(Failure::Memory),
    }
}

#[tactic(auto, using(crate::proofs::JoinLaws::replicas))]
/// The node after the first file.
pub fn join_first<N: FreshNode>(
    alloc: Global,
    graph: &Arc<Graph>,
    bytes: &[u8],
) -> Result<N, Failure>
    ensures exact { Gives (peer_by N.view) (file_joined (arc_value graph.now) 0 None bytes.now) result }
    ensures node { IfOk result (λ node. IsReplica (arc_value graph.now) (N.view node)) }
{
    match read_message(alloc, place_of(0), bytes) {
        Ok(message) => match N::new(alloc, graph, 0, message.counts().len() as u8) {
            Ok(node) => join(alloc, graph, 0, node, &message),
            Err(_) => Err(Failure::Memory),
        },
        Err(failure) => Err(failure),
    }
}

/// The node after one file more.
pub fn join_next<N: Node>(
    alloc: Global,
    graph: &Graph,
    number: u8,
    node: N,
    bytes: &[u8],
) -> Result<N, Failure>
    requires node { IsReplica graph.now (N.view node) }
    ensures exact { Gives (peer_by N.view) (file_joined graph.now number (Some (N.view node).peer) bytes.now) result }
    ensures node { IfOk result (λ node. IsReplica graph.now (N.view node)) }
{
    match read_message(alloc, place_of(number), bytes) {
        Ok(message) => join(alloc, graph, number, node, &message),
        Err(failure) => Err(failure),
    }
}
