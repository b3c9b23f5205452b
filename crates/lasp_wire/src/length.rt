//! How many bytes a message has, counted without them.

mod most;
mod rows;
mod states;
mod values;

ghost use Rattle.std.specs.Prelude.{◌≡◌, ◌≤◌, ◌^◌, IfOk, flat_map, length, map};
ghost use Rattle.lasp_wire.specs.Prelude.{spelled, spelled_source, sent_of};

pub use self::most::most_len;
use self::states::state_len;
use super::message::Message;
use super::source::Source;
use std::alloc::AllocError;

/// The number of bytes that `encode` gives for a message. It costs one pass, and for each set a list of its rows' addresses, which is sorted.
pub fn encoded_len(m: &Message) -> Result<u64, AllocError>
    ensures { IfOk result (λ n. n ≡ length (spelled m.now)) }
{
    m.recall();
    Ok(7 + 8 * m.counts().len() + sources_len(m.sources())?)
}

fn source_len(source: &Source) -> Result<u64, AllocError>
    requires { length (spelled_source (sent_of source.now)) ≤ 2 ^ 32 }
    ensures { IfOk result (λ n. n ≡ length (spelled_source (sent_of source.now))) }
{
    Ok(1 + source.name.len() + state_len(&source.state)?)
}

fn sources_len(sources: &[Source]) -> Result<u64, AllocError>
    requires { length (flat_map spelled_source (map sent_of sources.now)) ≤ 2 ^ 32 }
    ensures { IfOk result (λ n. n ≡ length (flat_map spelled_source (map sent_of sources.now))) }
{
    let mut len = 0;
    for source in sources {
        len += source_len(source)?;
    }
    Ok(len)
}
