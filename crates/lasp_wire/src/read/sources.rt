//! The sources of a message.

ghost use Rattle.std.specs.Prelude.{◌≡◌, ◌≤◌, map};
ghost use Rattle.lasp_wire.specs.Prelude.{list_at, source_at, sources_at, any_source_at, nothing_of_sources, Gives, sent_of};

use super::names::name_in;
use super::numbers::u8_in;
use super::states::state_in;
use crate::refused::ReadError;
use crate::source::Source;
use std::alloc::Global;

/// A source: its name, its kind and what it holds.
#[tactic(auto, unfolding(model_wire::specs::Message::source_at))]
fn source_in(
    alloc: Global,
    version: u8,
    nodes: u8,
    bytes: &[u8],
) -> Result<(Source, &[u8]), ReadError>
    requires some { 1 ≤ nodes }
    requires few { nodes ≤ 8 }
    ensures { Gives (λ x. (sent_of x.0, x.1.now)) result (source_at version nodes bytes.now) }
{
    let (name, rest) = name_in(alloc, bytes)?;
    let (state, rest) = state_in(alloc, version, nodes, rest)?;
    Ok((Source { name, state }, rest))
}

/// So many sources.
fn sources_of(
    alloc: Global,
    version: u8,
    nodes: u8,
    count: u8,
    bytes: &[u8],
) -> Result<(Vec<Source>, &[u8]), ReadError>
    requires some { 1 ≤ nodes }
    requires few { nodes ≤ 8 }
    ensures { Gives (λ x. (map sent_of x.0.items, x.1.now)) result (list_at (any_source_at version nodes) nothing_of_sources count tt bytes.now) }
{
    let mut sources: Vec<Source> = Vec::new(alloc);
    let mut rest = bytes;
    for _ in 0..count {
        let (source, after) = source_in(alloc, version, nodes, rest)?;
        sources.push(source)?;
        rest = after;
    }
    Ok((sources, rest))
}

/// The sources, with their number before them.
#[tactic(auto, unfolding(model_wire::specs::Message::sources_at))]
pub fn sources_in(
    alloc: Global,
    version: u8,
    nodes: u8,
    bytes: &[u8],
) -> Result<(Vec<Source>, &[u8]), ReadError>
    requires some { 1 ≤ nodes }
    requires few { nodes ≤ 8 }
    ensures { Gives (λ x. (map sent_of x.0.items, x.1.now)) result (sources_at version nodes bytes.now) }
{
    let (count, rest) = u8_in(bytes, 0, 64)?;
    sources_of(alloc, version, nodes, count, rest)
}
