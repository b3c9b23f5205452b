//! The message of a file, and whether a node may take it.

ghost use Rattle.std.specs.Prelude.{◌≡◌, ◌<◌, IfOk, length};
ghost use Rattle.lasp_call.specs.Prelude.{arc_value, refusing, name_at, Peer, IsMessage, decoded, Gives, may_take, OnlyLearns, IsRefusal, message_refused};
ghost use Rattle.model_program.specs.declared.refusal.Refusal.TheVariants as refusal;

use lasp_core::begins;
use lasp_drive::Node;
use lasp_graph::Graph;
use lasp_wire::{Counts, Message, WireRefused, decode};
use model_program::{Failure, Refusal, StateWhy};
use std::alloc::{AllocError, Global};
use std::sync::Arc;

/// The message that the bytes of a file are; the file is told by the place of its name among the words.
pub fn read_message(alloc: Global, file: usize, bytes: &[u8]) -> Result<Arc<Message>, Failure>
    ensures exact { Gives (λ m. arc_value m) (refusing (message_refused file) (decoded bytes.now)) result }
    ensures lawful { IfOk result (λ m. IsMessage (arc_value m)) }
{
    match decode(alloc, bytes) {
        Ok(message) => match Arc::new(alloc, message) {
            Ok(message) => Ok(message),
            Err(_) => Err(Failure::Memory),
        },
        Err(WireRefused::At { place, why }) => Err(Failure::Refused(Refusal::State(
            file,
            place,
            StateWhy::Wire(why),
        ))),
        Err(WireRefused::Memory) => Err(Failure::Memory),
    }
}

/// Whether a node that knows these counts may take a message: it is of the graph, and of as many nodes.
fn fits(graph: &Graph, counts: &Counts, message: &Message) -> bool
    ensures { (r : Peer) → r.counts ≡ counts.now → result ≡ may_take graph.now r message.now }
{
    begins(graph, message) && message.counts().len() == counts.len()
}

/// Whether a node of the graph may take a message.
pub fn may_take<N: Node>(
    alloc: Global,
    graph: &Graph,
    node: &mut N,
    message: &Message,
) -> Result<bool, AllocError>
    ensures taken { IfOk result (λ taken. taken ≡ may_take graph.now (N.view node.old).peer message.now) }
    ensures learns { OnlyLearns (N.view node.old) (N.view node.new) }
{
    let counts = node.counts(alloc)?;
    Ok(fits(graph, &counts, message))
}

/// The refusal of a command, or of what stands for one, at which a variable of a node is too large. Without memory for the variable's name it is want of memory.
pub fn too_large(graph: &Graph, command: u32, node: u8, var: u8) -> Failure
    requires { var < length graph.now }
    ensures { IsRefusal (refusal.TooLarge command node (name_at graph.now var)) result }
{
    match graph.at(u64::from(var)).name.try_clone() {
        Ok(name) => Failure::Refused(Refusal::TooLarge(command, node, name)),
        Err(_) => Failure::Memory,
    }
}
