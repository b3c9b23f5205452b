//! Which bytes are messages, against bytes written by hand from the format, and how many of them a network takes.

use lasp_gossip::{Network, SendRefused};
use lasp_wire::{Message, WireRefused, WireWhy, decode, encode};
use std::alloc::{AllocError, Global};
use std::sync::Arc;
use std::test::Fail;

/// Two nodes, of which the first counted 1, and a set `a` with the value 5.
const OLD: &[u8; 49] =
    b"LASP\x01\x02\0\0\0\0\0\0\0\x01\0\0\0\0\0\0\0\0\x01\x01a\x01\0\0\0\x01\0\0\0\0\0\0\0\0\x05\0\0\0\0\0\0\0\0\x01\0";

/// The same message in version 2.
const NEW: &[u8; 53] =
    b"LASP\x02\x02\0\0\0\0\0\0\0\x01\0\0\0\0\0\0\0\0\x01\x01a\x01\0\0\0\x01\0\0\0\0\0\0\0\0\x05\0\0\0\x01\0\0\0\0\0\0\0\0\x01\0";

/// Whether bytes are refused at a place for a cause.
fn is_refused(alloc: Global, bytes: &[u8], place: u64, why: WireWhy) -> bool {
    match decode(alloc, bytes) {
        Err(WireRefused::At { place: p, why: w }) => p == place && w == why,
        _ => false,
    }
}

/// Where the fields of the first message begin.
const OLD_STARTS: [usize; 18] = [
    0, 1, 2, 3, 4, 5, 6, 14, 22, 23, 24, 25, 26, 30, 31, 39, 40, 48,
];

/// Where those of the second begin.
const NEW_STARTS: [usize; 19] = [
    0, 1, 2, 3, 4, 5, 6, 14, 22, 23, 24, 25, 26, 30, 31, 39, 43, 44, 52,
];

/// Whether each cut of a message is short where its last field begins.
fn are_short(alloc: Global, message: &[u8], starts: &[usize]) -> bool {
    let mut place = 0;
    for len in 0..message.len() {
        if starts.contains(&len) {
            place = len as u64;
        }
        if !is_refused(alloc, &message[..len], place, WireWhy::Short) {
            return false;
        }
    }
    true
}

#[test]
fn a_cut_message_is_short_where_its_last_field_begins(rt: HostRuntime) -> Result<(), Fail> {
    assert!(rt; are_short(rt.alloc(), OLD, &OLD_STARTS));
    assert!(rt; are_short(rt.alloc(), NEW, &NEW_STARTS));
    Ok(())
}

/// Bytes that are put into a message from a place on, past its end if need be, and where and why it is refused then; nowhere, where it is one still.
type Change = (usize, &'static [u8], Option<(u64, WireWhy)>);

/// Changes of the first message. The last two bring a second row: one above the first, and the first once more.
const OLD_CHANGES: [Change; 16] = [
    (4, b"\x03", Some((4, WireWhy::Magic))),
    (5, b"\0", Some((5, WireWhy::Range))),
    (5, b"\x09", Some((5, WireWhy::Range))),
    (
        6,
        b"\xff\xff\xff\xff\xff\xff\xff\xff",
        Some((6, WireWhy::Range)),
    ),
    (22, b"\x41", Some((22, WireWhy::Range))),
    (23, b"\0", Some((23, WireWhy::Range))),
    (24, b"\x41", Some((24, WireWhy::Text))),
    (25, b"\x05", Some((25, WireWhy::Kind))),
    (26, b"\0\x01\0\x01", Some((26, WireWhy::Range))),
    (30, b"\x03", Some((30, WireWhy::Kind))),
    (39, b"\x02", Some((39, WireWhy::Range))),
    (40, b"\0\0\0\0\0\0\0\0", Some((40, WireWhy::Range))),
    (48, b"\x02", Some((48, WireWhy::Kind))),
    (49, b"\0", Some((49, WireWhy::Rest))),
    (
        26,
        b"\0\0\0\x02\0\0\0\0\0\0\0\0\x05\0\0\0\0\0\0\0\0\x01\0\0\0\0\0\0\0\0\0\x05\x01\0\0\0\0\0\0\0\x01\x01",
        None,
    ),
    (
        26,
        b"\0\0\0\x02\0\0\0\0\0\0\0\0\x05\0\0\0\0\0\0\0\0\x01\0\0\0\0\0\0\0\0\0\x05\0\0\0\0\0\0\0\0\x01\0",
        Some((49, WireWhy::Order)),
    ),
];

/// Changes of the second message. The last three bring a second token above the first, the first value once more, and the first token once more.
const NEW_CHANGES: [Change; 8] = [
    (4, b"\0", Some((4, WireWhy::Magic))),
    (39, b"\0\0\0\0", Some((39, WireWhy::Range))),
    (39, b"\0\x01\0\x01", Some((39, WireWhy::Range))),
    (52, b"\x02", Some((52, WireWhy::Kind))),
    (53, b"\0", Some((53, WireWhy::Rest))),
    (
        39,
        b"\0\0\0\x02\0\0\0\0\0\0\0\0\x01\0\0\0\0\0\0\0\0\0\x02\x01",
        None,
    ),
    (
        26,
        b"\0\0\0\x02\0\0\0\0\0\0\0\0\x05\0\0\0\x01\0\0\0\0\0\0\0\0\x01\0\0\0\0\0\0\0\0\0\x05\0\0\0\x01\0\0\0\0\0\0\0\0\x01\0",
        Some((53, WireWhy::Order)),
    ),
    (
        39,
        b"\0\0\0\x02\0\0\0\0\0\0\0\0\x01\0\0\0\0\0\0\0\0\0\x01\0",
        Some((53, WireWhy::Order)),
    ),
];

/// The bytes with others in place of those from a place on, or behind the last.
fn changed(alloc: Global, bytes: &[u8], at: usize, others: &[u8]) -> Result<Vec<u8>, AllocError> {
    let mut all = Vec::from_slice(alloc, bytes)?;
    all.truncate(at);
    all.extend_from_slice(others)?;
    if all.len() < bytes.len() {
        all.extend_from_slice(&bytes[all.len()..])?;
    }
    Ok(all)
}

/// Whether bytes are answered so.
fn is_answered(alloc: Global, bytes: &[u8], refusal: &Option<(u64, WireWhy)>) -> bool {
    match refusal {
        Some((place, why)) => is_refused(alloc, bytes, *place, *why),
        None => decode(alloc, bytes).is_ok(),
    }
}

/// The first change that isn't answered as its row says.
fn first_other(
    alloc: Global,
    message: &[u8],
    changes: &[Change],
) -> Result<Option<usize>, AllocError> {
    for i in 0..changes.len() {
        let (at, others, refusal) = &changes[i];
        let bytes = changed(alloc, message, *at, others)?;
        if !is_answered(alloc, &bytes, refusal) {
            return Ok(Some(i));
        }
    }
    Ok(None)
}

#[test]
fn a_changed_field_is_refused_at_its_place(rt: HostRuntime) -> Result<(), Fail> {
    assert_eq!(rt; first_other(rt.alloc(), OLD, &OLD_CHANGES)?, None);
    assert_eq!(rt; first_other(rt.alloc(), NEW, &NEW_CHANGES)?, None);
    Ok(())
}

/// A node that counted 4, and five sources: three rows of two values, two elements, a count, a number, and none, in version 1.
const OLD_FIVE: &[u8; 134] =
    b"LASP\x01\x01\0\0\0\0\0\0\0\x04\x05\x01s\x01\0\0\0\x03\0\xff\xff\xff\xff\xff\xff\xff\xff\0\0\0\0\0\0\0\0\x01\0\0\xff\xff\xff\xff\xff\xff\xff\xff\0\0\0\0\0\0\0\0\x02\x01\x02\x01\0\x02\xc3\xa9\0\0\0\0\0\0\0\0\x07\0\0\0\0\0\0\0\0\x04\0\x01g\x02\0\0\0\x02\0\0\0\0\0\0\0\0\x05\x01\0\x01x\x01c\x03\0\0\0\0\0\0\0\x09\x02m1\x04\x01\x80\0\0\0\0\0\0\0\x02m2\x04\0";

/// The same message in version 2.
const NEW_FIVE: &[u8; 133] =
    b"LASP\x02\x01\0\0\0\0\0\0\0\x04\x05\x01s\x01\0\0\0\x02\0\xff\xff\xff\xff\xff\xff\xff\xff\0\0\0\x02\0\0\0\0\0\0\0\0\x01\0\0\0\0\0\0\0\0\0\x02\x01\x02\x01\0\x02\xc3\xa9\0\0\0\0\0\0\0\0\x07\0\0\0\x01\0\0\0\0\0\0\0\0\x04\0\x01g\x02\0\0\0\x02\0\0\0\0\0\0\0\0\x05\x01\0\x01x\x01c\x03\0\0\0\0\0\0\0\x09\x02m1\x04\x01\x80\0\0\0\0\0\0\0\x02m2\x04\0";

/// Whether bytes are a message that is written as these others.
fn is_written(alloc: Global, bytes: &[u8], others: &[u8]) -> Result<bool, AllocError> {
    match decode(alloc, bytes) {
        Ok(message) => Ok(encode(alloc, &message)?.as_slice() == others),
        Err(_) => Ok(false),
    }
}

#[test]
fn both_versions_are_read_and_the_second_is_written(rt: HostRuntime) -> Result<(), Fail> {
    assert!(rt; is_written(rt.alloc(), OLD_FIVE, NEW_FIVE)?);
    assert!(rt; is_written(rt.alloc(), NEW_FIVE, NEW_FIVE)?);
    assert!(rt; is_written(rt.alloc(), OLD, NEW)?);
    Ok(())
}

/// The numbers under which a network of such a limit takes the message of these bytes twice, or why it doesn't.
fn sent_twice(
    alloc: Global,
    bytes: &[u8],
    limit: u64,
) -> Result<(Result<u32, SendRefused>, Result<u32, SendRefused>), WireRefused> {
    let mut network = Network::new(alloc, limit);
    let first = network.send(decode(alloc, bytes)?);
    let second = decode(alloc, bytes)?;
    if network.len() > 1 {
        return Ok((first, Err(SendRefused::Memory)));
    }
    Ok((first, network.send(second)))
}

/// How many hold the one message that was sent and then received twice, the network among them.
fn holders(alloc: Global, bytes: &[u8]) -> Result<Option<usize>, Fail> {
    let mut network = Network::new(alloc, 53);
    let sent = network.send(decode(alloc, bytes)?);
    if sent.is_err() || network.len() == 0 {
        return Ok(None);
    }
    let first = network.receive(0)?;
    let _second = network.receive(0)?;
    Ok(Some(Arc::strong_count(&first)))
}

#[test]
fn a_network_takes_what_it_has_room_for_and_shares_it(rt: HostRuntime) -> Result<(), Fail> {
    let full = Err(SendRefused::NetworkFull);
    assert!(rt; sent_twice(rt.alloc(), NEW, 52)? == (full, full));
    assert!(rt; sent_twice(rt.alloc(), NEW, 53)? == (Ok(0), full));
    assert!(rt; sent_twice(rt.alloc(), NEW, 106)? == (Ok(0), Ok(1)));
    // a value with two tokens, which stands there once: 63 bytes
    let tokens = b"\0\0\0\x02\0\0\0\0\0\0\0\0\x01\0\0\0\0\0\0\0\0\0\x02\x01";
    let two = changed(rt.alloc(), NEW, 39, tokens)?;
    assert!(rt; sent_twice(rt.alloc(), &two, 62)? == (full, full));
    assert!(rt; sent_twice(rt.alloc(), &two, 125)? == (Ok(0), full));
    assert!(rt; sent_twice(rt.alloc(), &two, 126)? == (Ok(0), Ok(1)));
    assert_eq!(rt; holders(rt.alloc(), NEW)?, Some(3));
    Ok(())
}
