//! A set that is tended in each way between its updates, beside a state of it that is kept, against what follows from the updates' numbers.

use lasp_logset::{OrSet, add_delta, changed};
use lasp_value::Value;
use std::alloc::{AllocError, Global};
use std::test::Fail;

/// Whether a value below 7 is visible behind so many updates: each is of what its number leaves by 7, and each third removes it.
fn is_shown(value: u64, updates: u64) -> bool {
    let mut is_shown = false;
    for k in 1..=updates {
        if k % 7 == value {
            is_shown = k % 3 > 0;
        }
    }
    is_shown
}

/// Whether a set shows what it has to behind so many updates, and has a row for each addition.
fn shows(set: &OrSet, updates: u64) -> bool {
    for value in 0..7u64 {
        if set.has(&Value::Int(value as i64)) != is_shown(value, updates) {
            return false;
        }
    }
    set.rows() == updates - updates / 3
}

/// What the update of a number brings: an addition, or a removal, told in one of two ways.
fn delta_of(alloc: Global, set: &OrSet, k: u64) -> Result<OrSet, AllocError> {
    let value = Value::Int((k % 7) as i64);
    match k % 6 {
        0 => set.remove_delta(&value),
        3 => set.bury_delta(&value),
        _ => add_delta(alloc, &value, 0, k),
    }
}

/// Joins it in, and tells whether the set grows where it lacks what is joined in, by as many rows as are told before.
fn update(alloc: Global, set: &mut OrSet, k: u64) -> Result<bool, AllocError> {
    let delta = delta_of(alloc, set, k)?;
    let rows = set.joined_rows(&delta);
    let is_known = delta.le(set);
    let grew = set.join_in(&delta)?;
    Ok(grew != is_known && delta.le(set) && set.rows() == rows)
}

/// Brings up to date what finds rows; nothing that is seen changes.
fn tend(set: &mut OrSet, number: u64) {
    match number % 6 {
        0 => set.gather(),
        1 => set.close(),
        2 => set.index_values(),
        3 => set.index_rows(),
        4 => set.order_rows(),
        _ => set.prune_value(&Value::Int((number % 7) as i64)),
    }
}

fn prints(alloc: Global, set: &OrSet, text: &str) -> Result<bool, AllocError> {
    let mut out = String::new(alloc);
    set.print_into(&mut out)?;
    Ok(out.as_str() == text)
}

/// The text of what is visible behind so many updates.
fn text_of(alloc: Global, updates: u64) -> Result<String, AllocError> {
    let mut text = String::new(alloc);
    for value in 0..7u8 {
        if is_shown(u64::from(value), updates) {
            text.push(if text.is_empty() { '[' } else { ',' })?;
            text.push((b'0' + value) as char)?;
        }
    }
    text.push(']')?;
    Ok(text)
}

/// Whether a set goes so by the updates from a number on.
fn goes_so(alloc: Global, set: &mut OrSet, from: u64, end: u64) -> Result<bool, AllocError> {
    for k in from..end {
        let is_told = update(alloc, set, k)?;
        tend(set, k / 5);
        let is_printed = prints(alloc, set, text_of(alloc, k)?.as_str())?;
        if !is_told || !is_printed || !shows(set, k) {
            return Ok(false);
        }
    }
    Ok(true)
}

/// The state as it is now, without the table or with it.
fn keep(set: &OrSet, as_past: bool) -> Result<OrSet, AllocError> {
    if as_past { set.past() } else { set.try_clone() }
}

/// Whether what changed since a state was kept makes the set of it.
fn is_made(alloc: Global, kept: &OrSet, set: &OrSet) -> Result<bool, AllocError> {
    let news = changed(alloc, kept, set)?;
    let mut made = kept.try_clone()?;
    let grew = made.join_in(&news)?;
    Ok(grew && made.le(set) && set.le(&made))
}

/// How many rows of a value a pass near it has.
fn count_near(set: &OrSet, value: &Value) -> Result<u64, AllocError> {
    let mut count = 0u64;
    let mut rows = set.entries_near(value)?;
    while let Some(row) = rows.next() {
        if row.is_of(value) {
            count = count.saturating_add(1);
        }
    }
    Ok(count)
}

/// Whether a set goes on so beside a state that was kept behind 59 updates, and ends as it has to.
fn goes_on(alloc: Global, set: &mut OrSet, kept: &OrSet) -> Result<bool, AllocError> {
    let goes_so = goes_so(alloc, set, 60, 161)?;
    Ok(
        goes_so
            && shows(kept, 59)
            && is_made(alloc, kept, set)?
            && count_near(set, &Value::Int(0))? == 15
            && set.visible()?.len() == 5
            && prints(alloc, set, "[0,1,3,4,6]")?,
    )
}

/// Whether it does with a state that is kept in this way.
fn goes_on_beside(alloc: Global, as_past: bool) -> Result<bool, AllocError> {
    let mut set = OrSet::new(alloc);
    if !goes_so(alloc, &mut set, 1, 60)? {
        return Ok(false);
    }
    let kept = keep(&set, as_past)?;
    goes_on(alloc, &mut set, &kept)
}

#[test]
fn a_set_goes_on_beside_its_past_and_beside_a_share_of_its_table(
    rt: HostRuntime,
) -> Result<(), Fail> {
    assert!(rt; goes_on_beside(rt.alloc(), true)?);
    assert!(rt; goes_on_beside(rt.alloc(), false)?);
    Ok(())
}
