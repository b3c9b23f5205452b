//! Map, filter and union of rows in a list, whose results are lists too: in no order, and a key may come twice.

ghost use Rattle.std.specs.Prelude.{◌≡◌, ◌<◌, ◌≤◌, ◌+◌, ◌++◌, IfOk, OnOk, length};
ghost use Rattle.lasp_setops.specs.Prelude.{mapped, passes, map_set, filter_set, join, of_rows, maps_of, predicates_of, map_ops_at, pred_ops_at, library_of, ticks_of, IsSetOfWidth, val_of, tok_of};

use lasp_fns::StepLib;
use lasp_logset::Entry;
use lasp_value::Value;
use std::alloc::{AllocError, Global};

/// The map of rows by the function at a place, with one call for each row.
pub fn map_rows(
    alloc: Global,
    lib: &mut StepLib,
    f: u32,
    rows: &[Entry],
) -> Result<Vec<Entry>, AllocError>
    requires place { f < length (maps_of (library_of lib.old)) }
    requires width { IsSetOfWidth 16 (of_rows rows.now) }
    ensures ok { IfOk result (λ out. of_rows out.items ≡ map_set (mapped (map_ops_at (library_of lib.old) f)) (of_rows rows.now)) }
    ensures library { library_of lib.new ≡ library_of lib.old }
    ensures ticks { ticks_of lib.new ≤ ticks_of lib.old + length rows.now }
{
    let mut out = Vec::with_capacity(alloc, rows.len())?;
    for row in rows {
        let value = row.value();
        value.recall_ints();
        let image = lib.call_map(f, value)?;
        let moved = with_value(alloc, row, image)?;
        out.push(moved)?;
    }
    Ok(out)
}

/// The rows that pass the predicate at a place, each a share, with one call for each row.
pub fn filter_rows(
    alloc: Global,
    lib: &mut StepLib,
    p: u32,
    rows: &[Entry],
) -> Result<Vec<Entry>, AllocError>
    requires place { p < length (predicates_of (library_of lib.old)) }
    requires width { IsSetOfWidth 16 (of_rows rows.now) }
    ensures ok { IfOk result (λ out. of_rows out.items ≡ filter_set (passes (pred_ops_at (library_of lib.old) p)) (of_rows rows.now)) }
    ensures library { library_of lib.new ≡ library_of lib.old }
    ensures ticks { ticks_of lib.new ≤ ticks_of lib.old + length rows.now }
{
    let mut out = Vec::new(alloc);
    for row in rows {
        let value = row.value();
        value.recall_ints();
        if !lib.call_pred(p, value) {
            continue;
        }
        let kept = row.try_clone()?;
        out.push(kept)?;
    }
    Ok(out)
}

/// The rows of both, each a share.
pub fn union_rows(
    alloc: Global,
    first: &[Entry],
    second: &[Entry],
) -> Result<Vec<Entry>, AllocError>
    ensures { IfOk result (λ out. of_rows out.items ≡ join (of_rows first.now) (of_rows second.now)) }
{
    let mut out = Vec::with_capacity(alloc, first.len().saturating_add(second.len()))?;
    append_rows(&mut out, first)?;
    append_rows(&mut out, second)?;
    Ok(out)
}

/// Shares of rows.
pub fn share_rows(alloc: Global, rows: &[Entry]) -> Result<Vec<Entry>, AllocError>
    ensures { IfOk result (λ out. out.items ≡ rows.now) }
{
    let mut out = Vec::with_capacity(alloc, rows.len())?;
    append_rows(&mut out, rows)?;
    Ok(out)
}

/// Puts a share of each row behind the list's.
fn append_rows(out: &mut Vec<Entry>, rows: &[Entry]) -> Result<(), AllocError>
    ensures { OnOk result (out.new.items ≡ out.old.items ++ rows.now) }
{
    for row in rows {
        let shared = row.try_clone()?;
        out.push(shared)?;
    }
    Ok(())
}

/// The row with another value.
fn with_value(alloc: Global, row: &Entry, value: Value) -> Result<Entry, AllocError>
    ensures { IfOk result (λ r. r ≡ ((val_of value, row.now.0.1), row.now.1)) }
{
    let token = row.token().try_clone(alloc)?;
    Entry::new(alloc, value, token, row.is_dead())
}
