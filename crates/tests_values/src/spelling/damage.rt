//! Texts that are nearly in usual spellings.

use super::reading::Tally;
use std::alloc::{AllocError, Global};
use std::test::Fail;

/// The bytes that mean something, and some that don't.
const BYTES: &[u8; 12] = b"[],\"01-.e\\ a";

/// Reads each text of five of these bytes, in brackets.
fn read_all_short(alloc: Global) -> Result<Tally, AllocError> {
    let mut tally = Tally::new();
    for a in BYTES {
        for b in BYTES {
            for c in BYTES {
                read_behind(alloc, &mut tally, [*a, *b, *c])?;
            }
        }
    }
    Ok(tally)
}

fn read_behind(alloc: Global, tally: &mut Tally, front: [u8; 3]) -> Result<(), AllocError> {
    for d in BYTES {
        for e in BYTES {
            let text = [b'[', front[0], front[1], front[2], *d, *e, b']'];
            tally.read(alloc, &text)?;
        }
    }
    Ok(())
}

/// A script in usual spellings.
const SCRIPT: &[u8; 90] =
    b"[[\"nodes\",2],\n [\"add\",0,\"a\",-10],[\"read\",1,\"a\",[\"added\",[10,[\"x\",0]]]], [\"print\",1,\"a\"]] \n";

/// What may stand in a byte's place.
const DAMAGE: &[u8; 24] = b"[],\"01-.e\\ a\t\n\r\x01{}:tnf\x80\xff";

/// Reads the script with each of these in each place.
fn read_all_damaged(alloc: Global) -> Result<Tally, AllocError> {
    let mut tally = Tally::new();
    let mut script = *SCRIPT;
    for place in 0..script.len() {
        let whole = script[place];
        for byte in DAMAGE {
            script[place] = *byte;
            tally.read(alloc, &script)?;
        }
        script[place] = whole;
    }
    Ok(tally)
}

/// Reads what begins the script, up to each place.
fn read_all_beginnings(alloc: Global) -> Result<Tally, AllocError> {
    let mut tally = Tally::new();
    for end in 0..SCRIPT.len() {
        tally.read(alloc, &SCRIPT[..end])?;
    }
    Ok(tally)
}

#[test]
fn what_is_taken_of_each_short_text_is_read_as_json(rt: HostRuntime) -> Result<(), Fail> {
    assert_eq!(rt;
        read_all_short(rt.alloc())?,
        Tally {
            taken: 1580,
            wrong: 0
        }
    );
    Ok(())
}

#[test]
fn what_is_taken_of_each_damaged_script_is_read_as_json(rt: HostRuntime) -> Result<(), Fail> {
    assert_eq!(rt;
        read_all_damaged(rt.alloc())?,
        Tally {
            taken: 519,
            wrong: 0
        }
    );
    assert_eq!(rt;
        read_all_beginnings(rt.alloc())?,
        Tally { taken: 2, wrong: 0 }
    );
    Ok(())
}
