//! Folds over small stories: whole, after a change, and through a library that counts its calls.

ghost use Rattle.std.specs.Prelude.{◌≡◌, ◌<◌, IfOk, length};
ghost use Rattle.model_graph.specs.Increment.{IsChange};
ghost use Rattle.lasp_fns.specs.Library.{lifts_of};
ghost use Rattle.lasp_fns.specs.Steps.{library_of};
ghost use Rattle.lasp_setops.specs.Fold.{HasWidth, IsWithinLimits};

use crate::made::{Rows, no_calls, rows};
use lasp_fns::{Library, MapOp, StepLib};
use lasp_logset::OrSet;
use lasp_setops::*;
use std::alloc::{AllocError, Global};
use std::sync::atomic::Ordering;
use std::test::Fail;

/// The most rows that a set variable may have.
const MOST_ROWS: u64 = 65_536;

/// A set with the rows of a change.
fn grown(before: &OrSet, change: &OrSet) -> Result<OrSet, AllocError>
    requires before { HasWidth before.now }
    requires change { HasWidth change.now }
    ensures change { IfOk result (λ s. IsChange before.now change.now s) }
    ensures limits { IfOk result (λ s. IsWithinLimits s) }
{
    before.ascends();
    change.ascends();
    let mut after = before.try_clone()?;
    after.join_in(change)?;
    if after.rows() > MOST_ROWS {
        return Err(AllocError);
    }
    Ok(after)
}

/// The number after a change, where it is the same in every way.
fn number_after<G: FoldGroup>(
    g: &G,
    library: &Library,
    lib: &mut StepLib,
    before: &OrSet,
    change: &OrSet,
    after: &OrSet,
) -> Result<Option<i128>, AllocError>
    requires same { library_of lib.old ≡ library.now }
    requires place { 0 < length (lifts_of (library_of lib.old)) }
    requires change { IsChange before.now change.now after.now }
    requires before { IsWithinLimits before.now }
    requires after { IsWithinLimits after.now }
    ensures library { library_of lib.new ≡ library_of lib.old }
{
    let old = fold_all(g, library.lift_at(0), before)?;
    let whole = fold_all(g, library.lift_at(0), after)?;
    let followed = fold_change(g, library.lift_at(0), old, before, after)?;
    let counted = fold_counted(g, lib, 0, old, before, after)?;
    let grown = fold_increment(g, lib, 0, old, before, change, after)?;
    if whole == followed && whole == counted && whole == grown && g.member(whole) {
        return Ok(Some(whole));
    }
    Ok(None)
}

/// Rows with a change; the sum after it; and how many calls all ways make that count them.
type Change<'a> = (Rows<'a>, Rows<'a>, i128, u64);

static CHANGES: [Change; 5] = [
    (&[], &[(-1, 1, false), (5, 2, false)], 4, 4),
    // a second token counts nothing, and the value goes with its last one
    (&[(7, 1, false)], &[(7, 2, false)], 7, 0),
    (&[(7, 1, false), (7, 2, false)], &[(7, 1, true)], 7, 0),
    (
        &[(7, 1, true), (7, 2, false), (-3, 3, false)],
        &[(7, 2, true)],
        -3,
        2,
    ),
    // the dead come again under another token
    (
        &[(9_223_372_036_854_775_807, 1, true)],
        &[
            (9_223_372_036_854_775_807, 2, false),
            (9_223_372_036_854_775_806, 3, false),
        ],
        18_446_744_073_709_551_613,
        4,
    ),
];

/// How many calls are counted until a fold comes to this number after a change.
fn calls_to<G: FoldGroup>(
    g: &G,
    library: &Library,
    sets: (&OrSet, &OrSet, &OrSet),
    number: i128,
) -> Result<Option<u64>, AllocError>
    requires place { 0 < length (lifts_of library.now) }
    requires change { IsChange sets.0.now sets.1.now sets.2.now }
    requires before { IsWithinLimits sets.0.now }
    requires after { IsWithinLimits sets.2.now }
{
    let mut steps = StepLib::new(library);
    let found = number_after(g, library, &mut steps, sets.0, sets.1, sets.2)?;
    if found == Some(number) {
        return Ok(Some(steps.ticks()));
    }
    Ok(None)
}

/// Whether the sum of a library's lift follows a change of rows so.
fn follow(alloc: Global, library: &Library, row: &Change) -> Result<bool, AllocError>
    requires place { 0 < length (lifts_of library.now) }
{
    let before = rows(alloc, row.0)?;
    let change = rows(alloc, row.1)?;
    let after = grown(&before, &change)?;
    Ok(calls_to(&Sum, library, (&before, &change, &after), row.2)? == Some(row.3))
}

/// The first change that it follows otherwise.
fn first_other(
    alloc: Global,
    library: &Library,
    changes: &[Change],
) -> Result<Option<i128>, AllocError>
    requires place { 0 < length (lifts_of library.now) }
{
    for row in changes {
        if !follow(alloc, library, row)? {
            return Ok(Some(row.2));
        }
    }
    Ok(None)
}

/// How often the sum calls the lift over all changes: once for each value that is visible before and after, and each of three ways once for each value that came or went.
const CALLS: u64 = 8 + 2 + 2 + 6 + 8;

#[test]
fn a_fold_follows_additions_and_removals_with_a_call_of_its_own_lift_for_each(
    rt: HostRuntime,
) -> Result<(), Fail> {
    let alloc = rt.alloc();
    let calls = no_calls(alloc)?;
    let other = {
        let library = crate::made::library_of(alloc, MapOp::Abs, &calls)?;
        first_other(alloc, &library, &CHANGES)
    };
    assert_eq!(rt; other?, None);
    assert_eq!(rt; calls.load(Ordering::SeqCst), CALLS);
    Ok(())
}
