//! What a replica sends.

ghost use Rattle.std.specs.Prelude.{◌≡◌, IfOk, length};
ghost use Rattle.lasp_gossip.specs.Prelude.{message_of, IsMessage, contents_of, AreSourcesOfKind};

use lasp_graph::{Graph, States};
use lasp_wire::{Counts, Message};
use std::alloc::{AllocError, Global};

/// The message of a replica with these states and counts: its sources in their order, each by its name and kind. It copies the names and the counts, and shares the states' rows.
pub fn message_of(
    alloc: Global,
    g: &Graph,
    sources: &States,
    counts: &[u64],
) -> Result<Message, AllocError>
    requires lawful { IsMessage (message_of g.now (contents_of sources.now) counts.now) }
    requires long { length sources.now ≡ length g.now }
    requires kinds { AreSourcesOfKind (length counts.now) g.now sources.now }
    ensures { IfOk result (λ m. m ≡ message_of g.now (contents_of sources.now) counts.now) }
{
    let mut m = Message::new(alloc, Counts::from_slice(alloc, counts)?);
    for x in 0..g.len() {
        let decl = g.at(x);
        if decl.kind.is_source() {
            m.push(&decl.name, sources.at(x))?;
        }
    }
    Ok(m)
}
