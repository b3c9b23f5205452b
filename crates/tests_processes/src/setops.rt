//! The processes over small stories, against rows written by hand.

use crate::made::{Rows, rows, spells};
use lasp_logset::OrSet;
use lasp_setops::*;
use std::alloc::{AllocError, Global};
use std::test::Fail;

/// A process of two sets.
#[derive(Clone, Copy)]
enum Process {
    Union,
    Product,
    Intersection,
}

fn combine(alloc: Global, process: Process, x: &OrSet, y: &OrSet) -> Result<OrSet, SetRefused> {
    match process {
        Process::Union => union_sets(x, y),
        Process::Product => product_sets(alloc, x, y),
        Process::Intersection => intersect_sets(alloc, x, y),
    }
}

/// A process, two sets with what is made of them, and a change of each with what is made then.
type Story<'a> = (Process, [Rows<'a>; 4], &'a str, &'a str);

/// What a process makes of the two sets.
fn made(alloc: Global, row: &Story) -> Result<OrSet, SetRefused> {
    let x = rows(alloc, row.1[0])?;
    let y = rows(alloc, row.1[1])?;
    combine(alloc, row.0, &x, &y)
}

/// A set of rows with the rows of a change.
fn grown(alloc: Global, table: Rows, change: &OrSet) -> Result<OrSet, AllocError> {
    let mut set = rows(alloc, table)?;
    set.join_in(change)?;
    Ok(set)
}

/// What it makes of them after the changes, from what it made before.
fn made_after(alloc: Global, old: &OrSet, row: &Story) -> Result<OrSet, SetRefused> {
    let x_change = rows(alloc, row.1[2])?;
    let y_change = rows(alloc, row.1[3])?;
    if let Process::Union = row.0 {
        return union_increment(old, &x_change, &y_change);
    }
    let x = grown(alloc, row.1[0], &x_change)?;
    let y = grown(alloc, row.1[1], &y_change)?;
    match row.0 {
        Process::Product => product_increment(alloc, old, &x, &x_change, &y, &y_change),
        _ => intersect_increment(alloc, old, &x, &x_change, &y, &y_change),
    }
}

/// Whether a process goes so.
fn goes_so(alloc: Global, row: &Story) -> Result<bool, SetRefused> {
    let old = made(alloc, row)?;
    let new = made_after(alloc, &old, row)?;
    Ok(spells(alloc, &old, row.2)? && spells(alloc, &new, row.3)?)
}

/// The first story that goes otherwise.
fn first_other<'a>(alloc: Global, stories: &'a [Story<'a>]) -> Result<Option<&'a str>, SetRefused> {
    for story in stories {
        if !goes_so(alloc, story)? {
            return Ok(Some(story.2));
        }
    }
    Ok(None)
}

static STORIES: [Story; 7] = [
    // an addition that is dead in either set is dead in the union
    (
        Process::Union,
        [
            &[(1, 1, false)],
            &[(1, 1, true), (2, 2, false)],
            &[],
            &[(2, 2, true), (3, 3, false)],
        ],
        "1@0.1x 2@0.2 ",
        "1@0.1x 2@0.2x 3@0.3 ",
    ),
    // one that was removed and another under its own token are two
    (
        Process::Union,
        [&[(1, 1, true)], &[(1, 2, false)], &[(2, 3, false)], &[]],
        "1@0.1x 1@0.2 ",
        "1@0.1x 1@0.2 2@0.3 ",
    ),
    // a row of a product is dead where either is
    (
        Process::Product,
        [
            &[(1, 1, false), (2, 2, true)],
            &[(5, 3, false)],
            &[],
            &[(6, 4, false)],
        ],
        "[1,5]@0.1+0.3 [2,5]@0.2+0.3x ",
        "[1,5]@0.1+0.3 [1,6]@0.1+0.4 [2,5]@0.2+0.3x [2,6]@0.2+0.4x ",
    ),
    (
        Process::Product,
        [&[(1, 1, false), (2, 2, true)], &[], &[], &[]],
        "",
        "",
    ),
    // both sets change
    (
        Process::Product,
        [
            &[(1, 1, false)],
            &[(5, 3, false)],
            &[(1, 1, true), (2, 2, false)],
            &[(6, 4, false)],
        ],
        "[1,5]@0.1+0.3 ",
        "[1,5]@0.1+0.3x [1,6]@0.1+0.4x [2,5]@0.2+0.3 [2,6]@0.2+0.4 ",
    ),
    // the second set loses a value under one token and has it again under another
    (
        Process::Intersection,
        [
            &[(3, 1, false), (4, 5, false)],
            &[(3, 2, false), (9, 6, false)],
            &[],
            &[(3, 2, true), (3, 4, false)],
        ],
        "3@0.1+0.2 ",
        "3@0.1+0.2x 3@0.1+0.4 ",
    ),
    // and the first does
    (
        Process::Intersection,
        [
            &[(3, 2, false), (9, 6, false)],
            &[(3, 1, false), (4, 5, false)],
            &[(3, 2, true), (3, 4, false)],
            &[],
        ],
        "3@0.2+0.1 ",
        "3@0.2+0.1x 3@0.4+0.1 ",
    ),
];

#[test]
fn processes_follow_additions_and_removals(rt: HostRuntime) -> Result<(), Fail> {
    assert_eq!(rt; first_other(rt.alloc(), &STORIES)?, None);
    Ok(())
}
