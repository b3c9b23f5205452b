//! One source of a message.

ghost use Rattle.std.specs.Prelude.{◌≡◌, ◌<◌, ◌↔◌, IsTrue, Some, length, slice_get};
ghost use Rattle.model_graph.specs.Message.{Sent};
ghost use Rattle.lasp_wire.specs.Sent.{kind_of, sent};

use lasp_state::State;
use lasp_value::Name;
use lasp_wire::Message;

/// The name of a source and what it holds, by its place from 0.
pub fn source_at(message: &Message, i: u64) -> (&Name, &State)
    requires { i < length message.now.sources }
    ensures { slice_get message.now.sources i ≡ Some (sent result.0.now result.1.now) }
{
    (message.name_at(i), message.state_at(i))
}

/// Whether two states are of sources of one kind.
fn are_same_kind(state: &State, other: &State) -> bool
    ensures { IsTrue result ↔ (kind_of state.now ≡ kind_of other.now) }
{
    match state {
        State::Set(_) => matches!(other, State::Set(_)),
        State::Grow(_) => matches!(other, State::Grow(_)),
        State::Count(_) => matches!(other, State::Count(_)),
        State::Max(_) => matches!(other, State::Max(_)),
        State::Fold(_, _) => matches!(other, State::Fold(_, _)),
    }
}

/// Whether two messages have at a place a source of the same name and kind.
pub fn are_same_source(base: &Message, more: &Message, i: u64) -> bool
    requires here { i < length base.now.sources }
    requires there { i < length more.now.sources }
    ensures { (s t : Sent) → slice_get base.now.sources i ≡ Some s → slice_get more.now.sources i ≡ Some t → IsTrue result ↔ (s.decl ≡ t.decl) }
{
    let (name, state) = source_at(base, i);
    let (other_name, other_state) = source_at(more, i);
    name.as_str() == other_name.as_str() && are_same_kind(state, other_state)
}
