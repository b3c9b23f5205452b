//! A delta between two messages, as bytes and as what it makes of a message.

use lasp_delta::{DeltaRefused, apply, decode_delta, delta_of, encode_delta, is_before};
use lasp_wire::{WireRefused, decode, encode};
use std::alloc::{AllocError, Global};
use std::test::Fail;

/// A node that counted 1, and a set `a` with the value 5.
const BEFORE: &[u8; 45] =
    b"LASP\x02\x01\0\0\0\0\0\0\0\x01\x01\x01a\x01\0\0\0\x01\0\0\0\0\0\0\0\0\x05\0\0\0\x01\0\0\0\0\0\0\0\0\x01\0";

/// The same node once it added 6.
const AFTER: &[u8; 68] =
    b"LASP\x02\x01\0\0\0\0\0\0\0\x02\x01\x01a\x01\0\0\0\x02\0\0\0\0\0\0\0\0\x05\0\0\0\x01\0\0\0\0\0\0\0\0\x01\0\0\0\0\0\0\0\0\0\x06\0\0\0\x01\0\0\0\0\0\0\0\0\x02\0";

/// What the second has beside the first.
pub(super) const DELTA: &[u8; 53] =
    b"LASD\x01\x01\0\0\0\0\0\0\0\x01\0\0\0\0\0\0\0\x02\x01\x01a\x01\0\0\0\x01\0\0\0\0\0\0\0\0\x06\0\0\0\x01\0\0\0\0\0\0\0\0\x02\0";

/// A message of a node that counted nothing yet.
const NOTHING: &[u8; 22] = b"LASP\x02\x01\0\0\0\0\0\0\0\0\x01\x01a\x01\0\0\0\0";

/// A message of two nodes: the first added 5 and 6 to a set `a`.
const OF_TWO: &[u8; 76] =
    b"LASP\x02\x02\0\0\0\0\0\0\0\x02\0\0\0\0\0\0\0\0\x01\x01a\x01\0\0\0\x02\0\0\0\0\0\0\0\0\x05\0\0\0\x01\0\0\0\0\0\0\0\0\x01\0\0\0\0\0\0\0\0\0\x06\0\0\0\x01\0\0\0\0\0\0\0\0\x02\0";

/// What it has beside itself: nothing.
const NOTHING_MORE: &[u8; 46] =
    b"LASD\x01\x02\0\0\0\0\0\0\0\x02\0\0\0\0\0\0\0\0\0\0\0\0\0\0\0\x02\0\0\0\0\0\0\0\0\x01\x01a\x01\0\0\0\0";

/// Whether the delta from a message to a later one has these bytes.
fn is_spelled(
    alloc: Global,
    before: &[u8],
    after: &[u8],
    bytes: &[u8],
) -> Result<bool, WireRefused> {
    let before = decode(alloc, before)?;
    let after = decode(alloc, after)?;
    if !is_before(&before, &after) {
        return Ok(false);
    }
    let delta = delta_of(alloc, &before, &after)?;
    Ok(encode_delta(alloc, &delta)?.as_slice() == bytes)
}

/// What the delta of these bytes makes of a message, as bytes, or why it makes nothing of it; none where it is no delta for it.
fn applied(
    alloc: Global,
    base: &[u8],
    bytes: &[u8],
) -> Result<Option<Result<Vec<u8>, DeltaRefused>>, WireRefused> {
    let base = decode(alloc, base)?;
    let delta = decode_delta(alloc, bytes)?;
    if !delta.suits(&base) {
        return Ok(None);
    }
    match apply(alloc, &base, &delta) {
        Ok(message) => Ok(Some(Ok(encode(alloc, &message)?))),
        Err(refused) => Ok(Some(Err(refused))),
    }
}

/// Whether a delta made these bytes of a message.
fn is_made(made: Option<Result<Vec<u8>, DeltaRefused>>, bytes: &[u8]) -> bool {
    match made {
        Some(Ok(message)) => message.as_slice() == bytes,
        _ => false,
    }
}

/// Whether a delta was refused for a gap of the first node, of which so many updates are known, where it goes on from so many.
fn is_gap(made: Option<Result<Vec<u8>, DeltaRefused>>, known: u64, after: u64) -> bool {
    match made {
        Some(
            Err(
                DeltaRefused::Gap {
                    replica,
                    have,
                    from,
                },
            ),
        ) => replica == 0 && have == known && from == after,
        _ => false,
    }
}

/// A delta that brings the number 65,536 to a grow-only set `g` of one node.
const ONE_MORE: &[u8; 39] =
    b"LASD\x01\x01\0\0\0\0\0\0\0\0\0\0\0\0\0\0\0\x01\x01\x01g\x02\0\0\0\x01\0\0\0\0\0\0\x01\0\0";

/// A message of a node that has the first so many numbers in such a set, and counted nothing.
fn of_numbers(alloc: Global, many: u32) -> Result<Vec<u8>, WireRefused> {
    let mut bytes = Vec::new(alloc);
    bytes.extend_from_slice(b"LASP\x02\x01\0\0\0\0\0\0\0\0\x01\x01g\x02")?;
    bytes.extend_from_slice(&many.to_be_bytes())?;
    for n in 0..many {
        bytes.push(0)?;
        bytes.extend_from_slice(&u64::from(n).to_be_bytes())?;
    }
    Ok(bytes)
}

/// Whether a delta was applied.
fn is_applied(made: Option<Result<Vec<u8>, DeltaRefused>>) -> bool {
    match made {
        Some(Ok(_)) => true,
        _ => false,
    }
}

/// Whether a delta was refused since the first source would be too large.
fn is_too_large(made: Option<Result<Vec<u8>, DeltaRefused>>) -> bool {
    match made {
        Some(Err(DeltaRefused::TooManyRows(source))) => source == 0,
        _ => false,
    }
}

#[test]
fn a_delta_brings_a_message_to_the_later_one_or_tells_of_a_gap(
    rt: HostRuntime,
) -> Result<(), Fail> {
    assert!(rt; is_spelled(rt.alloc(), BEFORE, AFTER, DELTA)?);
    assert!(rt; is_made(applied(rt.alloc(), BEFORE, DELTA)?, AFTER));
    assert!(rt; is_gap(applied(rt.alloc(), NOTHING, DELTA)?, 0, 1));
    assert!(rt; is_spelled(rt.alloc(), OF_TWO, OF_TWO, NOTHING_MORE)?);
    assert!(rt; is_made(applied(rt.alloc(), OF_TWO, NOTHING_MORE)?, OF_TWO));
    Ok(())
}

#[test]
fn a_delta_that_makes_a_source_too_large_is_refused(rt: HostRuntime) -> Result<(), Fail> {
    let room = of_numbers(rt.alloc(), 65_535)?;
    assert!(rt; is_applied(applied(rt.alloc(), room.as_slice(), ONE_MORE)?));
    let full = of_numbers(rt.alloc(), 65_536)?;
    assert!(rt; is_too_large(applied(rt.alloc(), full.as_slice(), ONE_MORE)?));
    Ok(())
}
