//! Damaged deltas: one delta cut at each of its bytes, and with each of its bytes changed.

use super::bytes::DELTA;
use lasp_delta::{decode_delta, encode_delta};
use lasp_wire::{WireRefused, WireWhy};
use std::alloc::{AllocError, Global};
use std::test::Fail;

/// The fields of the delta: where each begins, and where it ends.
const FIELDS: &[(usize, usize); 19] = &[
    (0, 1),
    (1, 2),
    (2, 3),
    (3, 4),
    (4, 5),
    (5, 6),
    (6, 14),
    (14, 22),
    (22, 23),
    (23, 24),
    (24, 25),
    (25, 26),
    (26, 30),
    (30, 31),
    (31, 39),
    (39, 43),
    (43, 44),
    (44, 52),
    (52, 53),
];

/// Of each byte that is changed to 255: where these begin, where they end, and the place and the cause of the refusal. A version, a count that is above the later one, more values and more
/// tokens than there are, are among them.
const CHANGED: &[(usize, usize, u64, WireWhy); 18] = &[
    (0, 1, 0, WireWhy::Magic),
    (1, 2, 1, WireWhy::Magic),
    (2, 3, 2, WireWhy::Magic),
    (3, 4, 3, WireWhy::Magic),
    (4, 5, 4, WireWhy::Magic),
    (5, 6, 5, WireWhy::Range),
    (6, 12, 6, WireWhy::Range),
    (12, 20, 14, WireWhy::Range),
    (22, 23, 22, WireWhy::Range),
    (23, 24, 23, WireWhy::Range),
    (24, 25, 24, WireWhy::Text),
    (25, 26, 25, WireWhy::Kind),
    (26, 28, 26, WireWhy::Range),
    (28, 30, 53, WireWhy::Short),
    (30, 31, 30, WireWhy::Kind),
    (39, 41, 39, WireWhy::Range),
    (41, 43, 53, WireWhy::Short),
    (43, 44, 43, WireWhy::Range),
];

/// The same of the last token.
const CHANGED_TOKEN: &[(usize, usize, u64, WireWhy); 2] = &[
    (44, 50, 44, WireWhy::Range),
    (52, 53, 52, WireWhy::Kind),
];

/// The last two bytes of a later count, a number, and the last two of an update: changed to 255 they are another delta.
const READ: &[(usize, usize); 3] = &[(20, 22), (31, 39), (50, 52)];

/// Whether bytes are refused at this place for this cause.
fn is_refused(alloc: Global, bytes: &[u8], place: u64, why: WireWhy) -> bool {
    match decode_delta(alloc, bytes) {
        Err(WireRefused::At { place: p, why: w }) => p == place && w == why,
        _ => false,
    }
}

/// The bytes with one of them 255.
fn with_change(alloc: Global, bytes: &[u8], at: usize) -> Result<Vec<u8>, AllocError> {
    let mut all = Vec::new(alloc);
    all.extend_from_slice(bytes)?;
    if let Some(byte) = all.get_mut(at) {
        *byte = 255;
    }
    Ok(all)
}

/// How many cuts within the fields are refused as short at the field's first byte.
fn short_cuts(alloc: Global, bytes: &[u8], fields: &[(usize, usize)]) -> u64 {
    let mut count: u64 = 0;
    for (first, past) in fields {
        for at in *first..*past {
            let (cut, _) = bytes.split_at(at.min(bytes.len()));
            if is_refused(alloc, cut, *first as u64, WireWhy::Short) {
                count = count.saturating_add(1);
            }
        }
    }
    count
}

/// How many changes are refused as they have to be.
fn refused_changes(
    alloc: Global,
    bytes: &[u8],
    changes: &[(usize, usize, u64, WireWhy)],
) -> Result<u64, AllocError> {
    let mut count: u64 = 0;
    for (first, past, place, why) in changes {
        for at in *first..*past {
            let changed = with_change(alloc, bytes, at)?;
            if is_refused(alloc, changed.as_slice(), *place, *why) {
                count = count.saturating_add(1);
            }
        }
    }
    Ok(count)
}

/// How many changes are read as another delta, which has these bytes.
fn read_changes(
    alloc: Global,
    bytes: &[u8],
    changes: &[(usize, usize)],
) -> Result<u64, WireRefused> {
    let mut count: u64 = 0;
    for (first, past) in changes {
        for at in *first..*past {
            let changed = with_change(alloc, bytes, at)?;
            let delta = decode_delta(alloc, changed.as_slice())?;
            if encode_delta(alloc, &delta)?.as_slice() == changed.as_slice() {
                count = count.saturating_add(1);
            }
        }
    }
    Ok(count)
}

#[test]
fn each_cut_and_each_changed_byte_of_a_delta_is_refused_at_its_field_or_read_as_another(
    rt: HostRuntime,
) -> Result<(), Fail> {
    let alloc = rt.alloc();
    assert!(rt; short_cuts(alloc, DELTA, FIELDS) == 53);
    assert!(rt; refused_changes(alloc, DELTA, CHANGED)? == 34);
    assert!(rt; refused_changes(alloc, DELTA, CHANGED_TOKEN)? == 7);
    assert!(rt; read_changes(alloc, DELTA, READ)? == 12);
    Ok(())
}
