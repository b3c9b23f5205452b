//! The delta that bytes are.

ghost use Rattle.std.specs.Prelude.{◌≡◌, ◌≤◌, ℕ, ◌+◌, IfOk, IfErr, Ok, Err, drop, length};
ghost use Rattle.std.specs.Int.{w64};
ghost use Rattle.model_wire.specs.declared.wire_why.WireWhy as declared;
ghost use Rattle.model_wire.specs.Reader.{ranged_at};
ghost use Rattle.model_wire.specs.Message.{update_limit, numbers_at};
ghost use Rattle.model_deltas.specs.Delta as plain;
ghost use Rattle.model_deltas.specs.Before.{IsDelta};
ghost use Rattle.model_deltas.specs.Spelling.{spelled_delta};
ghost use Rattle.model_deltas.specs.Reader.{later_counts_at, span_at, delta_body_at, delta_version_at, delta_at, decoded_delta};
ghost use Rattle.model_deltas.specs.Stuck.{IsStuckDelta};
ghost use Rattle.lasp_wire.specs.Placed.{IsReadAt};
ghost use Rattle.lasp_wire.specs.Decoded.{Tells};
ghost use Rattle.lasp_delta.specs.Decoded.{parts_of, IsStuckAs};

use super::delta::Delta;
use lasp_wire::{Counts, Message, WireRefused, WireWhy, count_at, magic_at, nodes_at, sources_at};
use std::alloc::Global;

/// The parts of a delta.
#[derive(Drop)]
struct Parts {
    from: Counts,
    counts: Counts,
    sources: Message,
}

/// The delta whose spelling the bytes are, or the first field that can't be read, with its place counted in bytes from 0. It costs one pass, and no more memory than the delta.
pub fn decode_delta(alloc: Global, bytes: &[u8]) -> Result<Delta, WireRefused>
    // The delta, or the place and the cause of the refusal.
    ensures exact { Tells (λ d. d) result (decoded_delta bytes.now) }
    // What is read is in the ranges of the format, and the bytes are its spelling.
    ensures read { IfOk result (λ d. IsDelta d × (bytes.now ≡ spelled_delta d)) }
    // What is spelled so is read.
    ensures only { (d : plain.Delta) → IsDelta d → bytes.now ≡ spelled_delta d → Tells (λ e. e) result (Ok d) }
    // A refusal tells where whole lawful fields, in order, end, and what stands there fails.
    ensures stuck { IfErr result (λ e. IsStuckAs e bytes.now) }
    // Where they end so, that is told.
    ensures refused { (place : ℕ) (why : declared.WireWhy) → IsStuckDelta bytes.now place why → Tells (λ d. d) result (Err (place, why)) }
{
    let parts = parts_in(alloc, bytes)?;
    let carried = parts.sources.with_counts(parts.counts);
    Ok(Delta::of(parts.from, carried))
}

/// The parts of the delta that all of the bytes are.
fn parts_in(alloc: Global, bytes: &[u8]) -> Result<Parts, WireRefused>
    ensures { Tells parts_of result (decoded_delta bytes.now) }
{
    version_in(bytes)?;
    let (parts, behind) = parts_at(alloc, bytes, 5)?;
    if behind < bytes.len() as u64 {
        return Err(WireRefused::At {
            place: behind,
            why: WireWhy::Rest,
        });
    }
    Ok(parts)
}

/// `LASD` and the version.
#[tactic(auto, unfolding(model_deltas::specs::Reader::delta_version_at))]
fn version_in(bytes: &[u8]) -> Result<(), WireRefused>
    ensures { IsReadAt bytes.now (λ _. (1, 5)) result (delta_version_at bytes.now) }
{
    magic_at(bytes, 0, b'L')?;
    magic_at(bytes, 1, b'A')?;
    magic_at(bytes, 2, b'S')?;
    magic_at(bytes, 3, b'D')?;
    magic_at(bytes, 4, 1)
}

/// What stands behind the version.
#[tactic(auto, unfolding(model_deltas::specs::Reader::delta_body_at))]
fn parts_at(alloc: Global, bytes: &[u8], place: u64) -> Result<(Parts, u64), WireRefused>
    requires { place ≤ length bytes.now }
    ensures { IsReadAt bytes.now (λ x. (parts_of x.0, x.1)) result (delta_body_at (drop place bytes.now)) }
{
    let (from, counts, behind) = span_at(alloc, bytes, place)?;
    let (sources, behind) = sources_at(alloc, bytes, behind, from.len() as u8)?;
    Ok((
        Parts {
            from,
            counts,
            sources,
        },
        behind,
    ))
}

/// Both lists of counts, with the number of nodes before them.
#[tactic(auto, unfolding(model_deltas::specs::Reader::span_at, model_wire::specs::Message::counts_at))]
fn span_at(alloc: Global, bytes: &[u8], place: u64) -> Result<(Counts, Counts, u64), WireRefused>
    requires { place ≤ length bytes.now }
    ensures exact { IsReadAt bytes.now (λ x. ((x.0, x.1), x.2)) result (span_at (drop place bytes.now)) }
    ensures some { IfOk result (λ x. 1 ≤ length x.0) }
    ensures few { IfOk result (λ x. length x.0 ≤ 8) }
{
    let nodes = nodes_at(bytes, place)?;
    let (from, behind) = counts_at(alloc, bytes, place + 1, nodes)?;
    let (counts, behind) = later_counts_at(alloc, bytes, behind, &from)?;
    Ok((from, counts, behind))
}

/// So many counts.
fn counts_at(
    alloc: Global,
    bytes: &[u8],
    place: u64,
    nodes: u8,
) -> Result<(Counts, u64), WireRefused>
    requires { place ≤ length bytes.now }
    ensures exact { IsReadAt bytes.now (λ x. (x.0, x.1)) result (numbers_at update_limit nodes (drop place bytes.now)) }
    ensures long { IfOk result (λ x. length x.0 ≡ nodes) }
{
    let mut counts = Counts::new(alloc);
    let mut behind = place;
    for _ in 0..nodes {
        let count = count_at(bytes, behind)?;
        counts.push(count)?;
        behind += 8;
    }
    Ok((counts, behind))
}

/// A count for each from which the delta goes on, and none below it.
fn later_counts_at(
    alloc: Global,
    bytes: &[u8],
    place: u64,
    from: &Counts,
) -> Result<(Counts, u64), WireRefused>
    requires { place ≤ length bytes.now }
    ensures { IsReadAt bytes.now (λ x. (x.0, x.1)) result (later_counts_at from.now (drop place bytes.now)) }
{
    let mut counts = Counts::new(alloc);
    let mut behind = place;
    for q in 0..from.len() {
        let count = later_count_at(bytes, behind, from.at(q))?;
        counts.push(count)?;
        behind += 8;
    }
    Ok((counts, behind))
}

/// A count that is not below this one.
fn later_count_at(bytes: &[u8], place: u64, least: u64) -> Result<u64, WireRefused>
    requires { place ≤ length bytes.now }
    ensures { IsReadAt bytes.now (λ n. (n, place + 8)) result (ranged_at w64 least update_limit (drop place bytes.now)) }
{
    let count = count_at(bytes, place)?;
    if count < least {
        return Err(WireRefused::At {
            place,
            why: WireWhy::Range,
        });
    }
    Ok(count)
}
