//! How many bytes a message has at most, told by what its states keep of that.

ghost use Rattle.std.specs.Prelude.{◌≤◌, flat_map, length, map};
ghost use Rattle.lasp_wire.specs.Prelude.{spelled, spelled_source, spelled_content, sent_of, content_of, kind_of, IsBounded};

use super::states::{counter_len, top_len};
use crate::message::Message;
use crate::source::Source;
use lasp_state::State;

/// A number that is at least the bytes that `encode` gives for a message. It costs a step for each source, and takes no memory.
/// Where there is no grow-only set, no value of a set has two rows, and no row died after it had come, it is that number.
pub fn most_len(m: &Message) -> u64
    ensures { length (spelled m.now) ≤ result }
{
    m.recall();
    most_of_sources(m.sources()).saturating_add(7 + 8 * m.counts().len())
}

fn most_of_sources(sources: &[Source]) -> u64
    ensures { IsBounded (length (flat_map spelled_source (map sent_of sources.now))) result }
{
    let mut len = 0u64;
    for source in sources {
        len = len.saturating_add(most_of_source(source));
    }
    len
}

fn most_of_source(source: &Source) -> u64
    ensures { IsBounded (length (spelled_source (sent_of source.now))) result }
{
    most_of_state(&source.state)
        .saturating_add(source.name.len())
        .saturating_add(1)
}

/// The kind of a source with this state, and what it holds. A fold is no source, and has no spelling.
fn most_of_state(state: &State) -> u64
    ensures { IsBounded (length (spelled_content (kind_of state.now) (content_of state.now))) result }
{
    match state {
        State::Set(set) => set.weight().saturating_add(5),
        State::Grow(values) => values.weight().saturating_add(5),
        State::Count(counter) => counter_len(counter).saturating_add(1),
        State::Max(register) => 1 + top_len(register.value),
        State::Fold(_, _) => 0,
    }
}
