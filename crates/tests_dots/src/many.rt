//! Sets of so many pairs that these lie in several pieces, some of which other sets share.

use crate::beside::Beside;
use crate::wrong::Wrong;
use lasp_value::Value;
use std::alloc::Global;
use std::test::Fail;

/// How many values there are.
const MANY: u64 = 400;

/// A replica adds each value once, neither in order nor against it.
fn add_all(alloc: Global, replica: &mut Beside, node: u8) -> Result<(), Wrong> {
    for i in 0..MANY {
        replica.add(alloc, &Value::Int((i * 7 % MANY) as i64), node)?;
    }
    Ok(())
}

/// A replica removes each second value from one on, so that some pieces keep few pairs.
fn remove_some(replica: &mut Beside, from: u64, node: u8) -> Result<(), Wrong> {
    for i in 0..100u64 {
        replica.remove(&Value::Int((from % MANY + i + i) as i64), node)?;
    }
    Ok(())
}

/// A replica removes all values of a stretch that is longer than a piece.
fn remove_stretch(replica: &mut Beside, node: u8) -> Result<(), Wrong> {
    for i in 50..250i64 {
        replica.remove(&Value::Int(i), node)?;
    }
    Ok(())
}

fn look(replica: &Beside) -> Result<(), Wrong> {
    if replica.is_alike()? {
        Ok(())
    } else {
        Err(Wrong::Differs)
    }
}

/// Two replicas of many values, of which one has taken what the other has.
fn fill(alloc: Global, here: &mut Beside, there: &mut Beside) -> Result<(), Wrong> {
    add_all(alloc, here, 0)?;
    add_all(alloc, there, 1)?;
    there.take(here)?;
    look(there)
}

/// Both remove values, and a message of one comes late.
fn exchange(here: &mut Beside, there: &mut Beside, late: &Beside) -> Result<(), Wrong> {
    remove_stretch(there, 1)?;
    remove_some(here, 200, 0)?;
    look(here)?;
    look(there)?;
    look(late)?;
    here.take(there)?;
    here.take(late)?;
    there.take(here)
}

fn play(alloc: Global, here: &mut Beside, there: &mut Beside) -> Result<(), Wrong> {
    fill(alloc, here, there)?;
    let late = there.try_clone()?;
    exchange(here, there, &late)
}

/// How many pairs the first of two replicas has in the end, where both are alike.
fn left(alloc: Global) -> Result<u64, Wrong> {
    let mut here = Beside::new(alloc, 2)?;
    let mut there = Beside::new(alloc, 2)?;
    play(alloc, &mut here, &mut there)?;
    look(&here)?;
    look(&there)?;
    Ok(here.dots.dots())
}

#[test]
fn sets_of_many_pieces_show_what_sets_with_tombstones_show(rt: HostRuntime) -> Result<(), Fail> {
    assert_eq!(rt; left(rt.alloc())?, 325);
    Ok(())
}
