//! Rows that a set takes in one by one, against what changes by the join with the set of them.

use lasp_logset::{Entry, OrSet, RowList, changed};
use lasp_value::{Token, Value};
use std::alloc::{AllocError, Global};
use std::test::Fail;

/// A value, the number of its addition, and whether that is removed.
type Line = (i64, u64, bool);

/// Rows that come one list after the other: a row that died in its own list, told in either order; one that comes twice; known ones; a death of one that stands, among others.
const LISTS: &[&[Line]] = &[
    &[],
    &[(1, 1, false), (1, 1, true), (5, 6, false)],
    &[(2, 2, true), (2, 2, false)],
    &[(3, 3, false), (3, 3, false)],
    &[(1, 1, true), (1, 1, false), (2, 2, false)],
    &[
        (4, 4, false),
        (1, 1, false),
        (3, 3, true),
        (3, 3, false),
        (4, 5, false),
    ],
    &[(3, 3, true), (4, 4, true), (5, 6, true)],
];

fn rows_of(alloc: Global, lines: &[Line]) -> Result<Vec<Entry>, AllocError> {
    let mut rows = Vec::new(alloc);
    for (value, k, dead) in lines {
        rows.push(Entry::new(alloc, Value::Int(*value), Token::Base(0, *k), *dead)?)?;
    }
    Ok(rows)
}

fn is_same(set: &OrSet, other: &OrSet) -> bool {
    set.le(other) && other.le(set)
}

/// Whether a list has the rows of a set, each once.
fn lists(list: &RowList, set: &OrSet) -> Result<bool, AllocError> {
    Ok(
        list.len() == set.rows()
            && list.is_empty() == (set.rows() == 0)
            && is_same(&list.set()?, set),
    )
}

/// Whether a set takes rows in as it joins in the set of them, and tells what changed by that.
fn takes_in(alloc: Global, set: &mut OrSet, lines: &[Line]) -> Result<bool, AllocError> {
    let rows = rows_of(alloc, lines)?;
    let coming = OrSet::of_rows(alloc, rows.as_slice())?;
    let news = changed(alloc, set, &coming)?;
    let mut joined = set.past()?;
    let _grew = joined.join_in(&coming)?;
    let told = set.take_in(rows)?;
    Ok(lists(&told, &news)? && is_same(set, &joined))
}

/// Whether it does so with one list after the other, where a share of it is kept each time, or none.
fn takes_all(alloc: Global, set: &mut OrSet, is_shared: bool) -> Result<bool, AllocError> {
    for lines in LISTS {
        let before = set.past()?;
        let kept = if is_shared {
            set.try_clone()?
        } else {
            set.past()?
        };
        if !takes_in(alloc, set, lines)? || !is_same(&kept, &before) {
            return Ok(false);
        }
    }
    Ok(set.rows() == 6)
}

#[test]
fn a_set_takes_rows_in_as_it_joins_the_set_of_them_in(rt: HostRuntime) -> Result<(), Fail> {
    let alloc = rt.alloc();
    assert!(rt; takes_all(alloc, &mut OrSet::new(alloc), false)?);
    assert!(rt; takes_all(alloc, &mut OrSet::new(alloc).indexed()?, false)?);
    assert!(rt; takes_all(alloc, &mut OrSet::new(alloc).indexed()?, true)?);
    Ok(())
}
