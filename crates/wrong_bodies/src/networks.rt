//! The network between replicas.

ghost use Rattle.std.specs.Prelude.{◌≡◌, ◌+◌, ◌<◌, ◌^◌, Err, Some, IfOk, length, slice_get};
ghost use Rattle.std.specs.Arc.{arc_value};
ghost use Rattle.model_graph.specs.Spelling.{spelled};
ghost use Rattle.lasp_gossip.specs.Network.{size_of};
ghost use Rattle.lasp_gossip.specs.declared.refused.SendRefused.TheVariants as refused;

use lasp_gossip::{Network, SendRefused};
use lasp_wire::Message;
use std::alloc::AllocError;
use std::sync::Arc;

/// `lasp_gossip::Network::send`.
pub fn send(network: &mut Network, m: Message) -> Result<u32, SendRefused>
    requires few { length network.old.sent < 2 ^ 32 }
    ensures full { result ≡ Err refused.NetworkFull → network.old.limit < size_of network.old.sent + length (spelled m) }
{
    network.send(m)
}

/// `lasp_gossip::Network::receive`.
pub fn receive(network: &Network, number: u32) -> Result<Arc<Message>, AllocError>
    requires { number < length network.now.sent }
    ensures message { IfOk result (λ m. slice_get network.now.sent number ≡ Some (arc_value m)) }
{
    network.receive(number)
}
