//! Which messages have the sources of a graph.

ghost use Rattle.std.specs.Prelude.{◌≡◌, ◌<◌, ◌↔◌, IsTrue, Some, length, slice_get};
ghost use Rattle.lasp_replica.specs.Prelude.{is_source, Sent, decl_of, kind_of, IsBeginning};
ghost use Rattle.lasp_wire.specs.Sent as sent;

use lasp_graph::{Decl, Graph, Kind};
use lasp_state::State;
use lasp_value::Name;
use lasp_wire::Message;

/// Whether a state is one of a source of the kind.
fn is_same_kind(state: &State, kind: &Kind) -> bool
    ensures { IsTrue result ↔ (IsTrue (is_source (kind_of kind.now)) × (sent.kind_of state.now ≡ kind_of kind.now)) }
{
    match state {
        State::Set(_) => matches!(kind, Kind::OrSet),
        State::Grow(_) => matches!(kind, Kind::GSet),
        State::Count(_) => matches!(kind, Kind::Counter),
        State::Max(_) => matches!(kind, Kind::MaxReg),
        State::Fold(_, _) => false,
    }
}

/// Whether source number i of a message is this one.
fn is_source_at(message: &Message, i: u64, decl: &Decl) -> bool
    requires { i < length message.now.sources }
    ensures { (s : Sent) → slice_get message.now.sources i ≡ Some s → IsTrue result ↔ (s.decl ≡ decl_of decl.now) }
{
    message.recall();
    let name: &Name = message.name_at(i);
    name.as_str() == decl.name.as_str() && is_same_kind(message.state_at(i), &decl.kind)
}

/// Whether a message's sources are the first of the graph's, in their order, each of the same name and kind. A message may have fewer
/// than the graph, as one that was sent before the graph grew; it isn't asked of how many nodes it is.
pub fn begins(graph: &Graph, message: &Message) -> bool
    ensures { IsTrue result ↔ IsBeginning message.now graph.now }
{
    let mut i = 0;
    for x in 0..graph.len() {
        if i == message.len() {
            return true;
        }
        let decl = graph.at(x);
        if decl.kind.is_source() {
            if !is_source_at(message, i, decl) {
                return false;
            }
            i += 1;
        }
    }
    i == message.len()
}
