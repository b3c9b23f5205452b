//! The fields at a place of bytes, for formats that have fields of messages among their own. A place is counted in bytes from 0; a refusal names the place of the first field from there on that can't be read.

ghost use Rattle.std.specs.Prelude.{◌≡◌, ℕ, ◌+◌, ◌≤◌, IfOk, drop, length};
ghost use Rattle.lasp_wire.specs.Prelude.{w64, zeros, ranged_at, magic_at, update_limit, nodes_at, sources_at, IsReadAt, placed_in};

use super::counts::Counts;
use super::message::Message;
use super::read::{magic_in, sources_in, u8_in, u64_in};
use super::refused::{ReadError, WireRefused};
use std::alloc::{AllocError, Global};

/// A byte that has to be this one.
pub fn magic_at(bytes: &[u8], place: u64, magic: u8) -> Result<(), WireRefused>
    requires { place ≤ length bytes.now }
    ensures { IsReadAt bytes.now (λ _. (magic, place + 1)) result (magic_at magic (drop place bytes.now)) }
{
    match magic_in(&bytes[place as usize..], magic) {
        Ok(_) => Ok(()),
        Err(e) => Err(placed_in(bytes, e)),
    }
}

/// The number of nodes, from 1 to 8, in one byte.
pub fn nodes_at(bytes: &[u8], place: u64) -> Result<u8, WireRefused>
    requires { place ≤ length bytes.now }
    ensures exact { IsReadAt bytes.now (λ n. (n, place + 1)) result (nodes_at (drop place bytes.now)) }
    ensures some { IfOk result (λ n. 1 ≤ n) }
    ensures few { IfOk result (λ n. n ≤ 8) }
{
    match u8_in(&bytes[place as usize..], 1, 8) {
        Ok((n, _)) => Ok(n),
        Err(e) => Err(placed_in(bytes, e)),
    }
}

/// How many updates of a replica are known, at most 100,000, in eight bytes.
pub fn count_at(bytes: &[u8], place: u64) -> Result<u64, WireRefused>
    requires { place ≤ length bytes.now }
    ensures exact { IsReadAt bytes.now (λ n. (n, place + 8)) result (ranged_at w64 0 update_limit (drop place bytes.now)) }
    ensures small { IfOk result (λ n. n ≤ update_limit) }
{
    match u64_in(&bytes[place as usize..], 0, 100_000) {
        Ok((n, _)) => Ok(n),
        Err(e) => Err(placed_in(bytes, e)),
    }
}

/// The sources of a message of so many nodes, with their number before them, as version 2 has them; and the place behind the last one. They come as a message whose counts are zeros.
pub fn sources_at(
    alloc: Global,
    bytes: &[u8],
    place: u64,
    nodes: u8,
) -> Result<(Message, u64), WireRefused>
    requires within { place ≤ length bytes.now }
    requires some { 1 ≤ nodes }
    requires few { nodes ≤ 8 }
    ensures exact { IsReadAt bytes.now (λ x. (x.0.sources, x.1)) result (sources_at 2 nodes (drop place bytes.now)) }
    ensures counts { IfOk result (λ x. x.0.counts ≡ zeros nodes) }
{
    match sources_in(alloc, 2, nodes, &bytes[place as usize..]) {
        Ok((sources, rest)) => {
            let counts = no_counts(alloc, nodes)?;
            let behind = bytes.len() - rest.len();
            Ok((Message::of(counts, sources), behind as u64))
        }
        Err(e) => Err(placed_in(bytes, e)),
    }
}

/// So many counts of which each is zero.
fn no_counts(alloc: Global, nodes: u8) -> Result<Counts, AllocError>
    ensures { IfOk result (λ counts. counts ≡ zeros nodes) }
{
    let mut counts = Vec::new(alloc);
    counts.resize(usize::from(nodes), 0)?;
    Ok(Counts::of(counts))
}

/// The refusal with the place of its field in all of the bytes.
fn placed_in(bytes: &[u8], e: ReadError) -> WireRefused
    ensures { result ≡ placed_in (length bytes.now) e }
{
    match e {
        ReadError::At(left, why) => WireRefused::At {
            place: bytes.len().saturating_sub(left) as u64,
            why,
        },
        ReadError::Memory => WireRefused::Memory,
    }
}
