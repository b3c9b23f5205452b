//! How counters and registers behave, against numbers written by hand.

use lasp_state::*;
use lasp_value::{Lattice, join_all};
use std::alloc::{AllocError, Global};
use std::test::Fail;

fn counted(alloc: Global, counts: [u64; 3]) -> Result<GCount, AllocError> {
    let mut counter = GCount::new(alloc, 3)?;
    for replica in 0..3u8 {
        let count = counts[replica as usize];
        if replica < counter.nodes() && count <= COUNT_MAX {
            counter.set_count(replica, count);
        }
    }
    Ok(counter)
}

fn shows(counter: &GCount, counts: [u64; 3]) -> bool {
    counter.nodes() == 3
        && counter.count_of(0) == counts[0]
        && counter.count_of(1) == counts[1]
        && counter.count_of(2) == counts[2]
}

/// A count, what is added, and what is held then.
static HELD: [(u64, u32, u64); 5] = [
    (0, 7, 7),
    (41, 1, 42),
    (COUNT_MAX - 3, 3, COUNT_MAX),
    (COUNT_MAX - 3, 4, COUNT_MAX),
    (COUNT_MAX, 4_294_967_295, COUNT_MAX),
];

/// The first count that is held otherwise when a number is added, or is no longer there in the counter and its clone.
fn first_held(alloc: Global, rows: &[(u64, u32, u64)]) -> Result<Option<u64>, AllocError> {
    for (count, by, held) in rows {
        let counter = counted(alloc, [8, *count, 9])?;
        let is_held = counter.nodes() == 3
            && shows(&counter.inc_delta(1, *by)?, [0, *held, 0])
            && shows(&counter.try_clone()?, [8, *count, 9])
            && shows(&counter.bottom_like()?, [0, 0, 0]);
        if !is_held {
            return Ok(Some(*count));
        }
    }
    Ok(None)
}

#[test]
fn a_count_is_held_at_the_most(rt: HostRuntime) -> Result<(), Fail> {
    assert_eq!(rt; first_held(rt.alloc(), &HELD)?, None);
    Ok(())
}

/// Whether three registers have these numbers.
fn have(registers: &[MaxReg; 3], values: [Option<i64>; 3]) -> bool {
    let [first, second, third] = registers;
    [first.value, second.value, third.value] == values
}

#[test]
fn registers_that_are_joined_again_stay(rt: HostRuntime) -> Result<(), Fail> {
    let none = MaxReg { value: None };
    let least = MaxReg { value: Some(-9) };
    let middle = MaxReg { value: Some(-5) };
    let most = MaxReg { value: Some(3) };
    let mut into = [middle, none, middle];
    assert!(rt; join_all(&mut into, &[least, middle, most])?);
    assert!(rt; have(&into, [Some(-5), Some(-5), Some(3)]));
    assert!(rt; !join_all(&mut into, &[least, middle, none])?);
    assert!(rt; have(&into, [Some(-5), Some(-5), Some(3)]));
    assert!(rt; middle.bottom_like()?.value == None && middle.le(&most) && !middle.le(&none));
    Ok(())
}
