//! Map and filter through stored closures, which count their calls.

ghost use Rattle.std.specs.Prelude.{◌<◌, length};
ghost use Rattle.lasp_fns.specs.Library.{maps_of, predicates_of};

use crate::made::{Rows, library_of, no_calls, rows, spells};
use lasp_fns::{Library, MapOp, StepLib, StoredMap, StoredPred};
use lasp_setops::{
    filter_counted, filter_increment, filter_set, map_counted, map_increment, map_set,
};
use std::alloc::{AllocError, Global};
use std::sync::atomic::Ordering;
use std::test::Fail;

/// Rows with what is made of them, and a change with what is made then.
type Following<'a> = (Rows<'a>, &'a str, Rows<'a>, &'a str);

/// Rows of which the first two are of numbers that differ by their sign: their rows become one, which is dead where either was.
const MAPPED: Following = (
    &[(-1, 7, true), (1, 7, false), (1, 8, false), (2, 9, false)],
    "1@0.7x 1@0.8 2@0.9 ",
    &[(-2, 9, true)],
    "1@0.7x 1@0.8 2@0.9x ",
);

/// Whether a map makes these rows.
fn maps_to(alloc: Global, stored: &StoredMap, row: &Following) -> Result<bool, AllocError> {
    let x = rows(alloc, row.0)?;
    spells(alloc, &map_set(alloc, stored, &x)?, row.1)
}

/// Whether the counted map of a library makes these rows and follows the change, with a call a row.
fn maps(alloc: Global, library: &Library, row: &Following) -> Result<bool, AllocError>
    requires place { 1 < length (maps_of library.now) }
{
    let x = rows(alloc, row.0)?;
    let change = rows(alloc, row.2)?;
    let mut steps = StepLib::new(library);
    let before = map_counted(alloc, &mut steps, 1, &x)?;
    let is_counted = steps.ticks() == x.rows();
    let after = map_increment(alloc, &mut steps, 1, &before, &change)?;
    Ok(
        is_counted
            && steps.ticks() == x.rows().saturating_add(change.rows())
            && spells(alloc, &before, row.1)?
            && spells(alloc, &after, row.3)?,
    )
}

#[test]
fn a_map_calls_its_own_closure_once_a_row_and_once_a_changed_row(
    rt: HostRuntime,
) -> Result<(), Fail> {
    let alloc = rt.alloc();
    let calls = no_calls(alloc)?;
    let told = {
        let library = library_of(alloc, MapOp::Abs, &calls)?;
        let plain = maps_to(alloc, library.map_at(0), &MAPPED);
        let none = calls.load(Ordering::SeqCst);
        let counted = maps_to(alloc, library.map_at(1), &MAPPED);
        let four = calls.load(Ordering::SeqCst);
        (plain, none, counted, four, maps(alloc, &library, &MAPPED))
    };
    assert!(rt; told.0? && told.1 == 0 && told.2? && told.3 == 4);
    assert!(rt; told.4? && calls.load(Ordering::SeqCst) == 9);
    Ok(())
}

/// Live and dead rows of even numbers and of odd ones.
const FILTERED: Following = (
    &[(-2, 1, false), (1, 2, true), (2, 3, true)],
    "-2@0.1 2@0.3x ",
    &[(-2, 1, true), (3, 4, false)],
    "-2@0.1x 2@0.3x ",
);

/// Whether a test keeps these rows.
fn keeps(alloc: Global, stored: &StoredPred, row: &Following) -> Result<bool, AllocError> {
    let x = rows(alloc, row.0)?;
    spells(alloc, &filter_set(stored, &x)?, row.1)
}

/// Whether the test of a library keeps these rows and follows the change, with a call a row.
fn filters(alloc: Global, library: &Library, row: &Following) -> Result<bool, AllocError>
    requires place { 0 < length (predicates_of library.now) }
{
    let x = rows(alloc, row.0)?;
    let change = rows(alloc, row.2)?;
    let mut steps = StepLib::new(library);
    let before = filter_counted(&mut steps, 0, &x)?;
    let is_counted = steps.ticks() == x.rows();
    let after = filter_increment(&mut steps, 0, &before, &change)?;
    Ok(
        is_counted
            && steps.ticks() == x.rows().saturating_add(change.rows())
            && spells(alloc, &before, row.1)?
            && spells(alloc, &after, row.3)?,
    )
}

#[test]
fn a_filter_calls_its_closure_once_a_row_and_once_a_changed_row(
    rt: HostRuntime,
) -> Result<(), Fail> {
    let alloc = rt.alloc();
    let calls = no_calls(alloc)?;
    let told = {
        let library = library_of(alloc, MapOp::Abs, &calls)?;
        let kept = keeps(alloc, library.pred_at(0), &FILTERED);
        let three = calls.load(Ordering::SeqCst);
        (kept, three, filters(alloc, &library, &FILTERED))
    };
    assert!(rt; told.0? && told.1 == 3);
    assert!(rt; told.2? && calls.load(Ordering::SeqCst) == 8);
    Ok(())
}
