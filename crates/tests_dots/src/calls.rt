//! The least set, and a count that is full.

use crate::wrong::Wrong;
use lasp_dots::{DotRefused, DotSet};
use lasp_value::{Lattice, Token, Value};
use std::alloc::{AllocError, Global};
use std::test::Fail;

/// The set of two nodes.
fn empty(alloc: Global) -> Result<DotSet, AllocError> {
    DotSet::new(alloc, 2)
}

fn add(set: &mut DotSet, n: i64, replica: u8) -> Result<u64, Wrong> {
    if replica >= set.nodes() {
        return Err(Wrong::NoNode);
    }
    Ok(set.add(&Value::Int(n), replica)?)
}

fn remove(set: &mut DotSet, n: i64, replica: u8) -> Result<u64, Wrong> {
    if replica >= set.nodes() {
        return Err(Wrong::NoNode);
    }
    Ok(set.remove(&Value::Int(n), replica)?)
}

fn is_at_most(set: &DotSet, other: &DotSet) -> bool {
    set.nodes() == other.nodes() && set.le(other)
}

/// Whether the set has just these pairs of a number and a base token.
fn has_pairs(set: &DotSet, pairs: &[(i64, u8, u64)]) -> bool {
    if set.dots() != pairs.len() as u64 {
        return false;
    }
    for i in 0..pairs.len() {
        let (n, replica, k) = pairs[i];
        let (value, token) = set.dot_at(i as u64);
        if *value != Value::Int(n) || *token != Token::Base(replica, k) {
            return false;
        }
    }
    true
}

/// Whether so many updates of each of the two nodes are counted.
fn counts(set: &DotSet, first: u64, second: u64) -> bool {
    set.nodes() == 2 && set.count_of(0) == first && set.count_of(1) == second
}

/// The least set of as many nodes is made of any, which stays as it is.
fn least(alloc: Global) -> Result<bool, Wrong> {
    let mut set = empty(alloc)?;
    add(&mut set, 7, 1)?;
    remove(&mut set, 8, 0)?;
    let bottom = set.bottom_like()?;
    let lower = is_at_most(&bottom, &set) && !is_at_most(&set, &bottom);
    let kept = has_pairs(&set, &[(7, 1, 1)]) && counts(&set, 1, 1);
    Ok(lower && kept && has_pairs(&bottom, &[]) && counts(&bottom, 0, 0))
}

#[test]
fn the_least_set_has_no_pairs_and_counts_nothing(rt: HostRuntime) -> Result<(), Fail> {
    assert!(rt; least(rt.alloc())?);
    Ok(())
}

/// Whether the next update is refused since the count is full.
fn is_full(outcome: Result<u64, DotRefused>) -> bool {
    match outcome {
        Err(DotRefused::CountFull) => true,
        _ => false,
    }
}

fn full_count(alloc: Global) -> Result<bool, Wrong> {
    let mut set = empty(alloc)?;
    for _ in 0..99_999u32 {
        remove(&mut set, 0, 1)?;
    }
    let last = add(&mut set, 3, 1)?;
    let add_refused = set.nodes() == 2 && is_full(set.add(&Value::Int(4), 1));
    let remove_refused = set.nodes() == 2 && is_full(set.remove(&Value::Int(3), 1));
    Ok(
        last == 100_000
            && add_refused
            && remove_refused
            && has_pairs(&set, &[(3, 1, 100_000)])
            && counts(&set, 0, 100_000),
    )
}

#[test]
fn the_update_after_the_hundred_thousandth_is_refused_and_changes_nothing(
    rt: HostRuntime,
) -> Result<(), Fail> {
    assert!(rt; full_count(rt.alloc())?);
    Ok(())
}
