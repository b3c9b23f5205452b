//! Map and filter through a library that counts its calls.

ghost use Rattle.std.specs.Prelude.{◌≡◌, ◌<◌, ◌≤◌, ◌+◌, IfOk, length};
ghost use Rattle.lasp_setops.specs.Prelude.{mapped, passes, map_set, filter_set, maps_of, predicates_of, map_ops_at, pred_ops_at, library_of, ticks_of, IsSetOfWidth};

use crate::row::with_value;
use lasp_fns::StepLib;
use lasp_logset::OrSet;
use std::alloc::{AllocError, Global};

/// The map by the function at a place, with at most one call for each row.
pub fn map_counted(alloc: Global, lib: &mut StepLib, f: u32, x: &OrSet) -> Result<OrSet, AllocError>
    requires place { f < length (maps_of (library_of lib.old)) }
    requires width { IsSetOfWidth 16 x.now }
    ensures ok { IfOk result (λ s. s ≡ map_set (mapped (map_ops_at (library_of lib.old) f)) x.now) }
    ensures library { library_of lib.new ≡ library_of lib.old }
    ensures ticks { ticks_of lib.new ≤ ticks_of lib.old + length x.now }
{
    let mut out = x.empty();
    let mut rows = x.entries()?;
    while let Some(row) = rows.next() {
        let value = row.value();
        value.recall_ints();
        let image = lib.call_map(f, value)?;
        let moved = with_value(alloc, &row, image)?;
        out.add(moved)?;
    }
    Ok(out)
}

/// The filter by the predicate at a place, with one call for each row.
pub fn filter_counted(lib: &mut StepLib, p: u32, x: &OrSet) -> Result<OrSet, AllocError>
    requires place { p < length (predicates_of (library_of lib.old)) }
    requires width { IsSetOfWidth 16 x.now }
    ensures ok { IfOk result (λ s. s ≡ filter_set (passes (pred_ops_at (library_of lib.old) p)) x.now) }
    ensures library { library_of lib.new ≡ library_of lib.old }
    ensures ticks { ticks_of lib.new ≤ ticks_of lib.old + length x.now }
{
    x.ascends();
    let mut out = x.empty();
    let mut rows = x.entries()?;
    while let Some(row) = rows.next() {
        let value = row.value();
        value.recall_ints();
        if lib.call_pred(p, value) {
            let kept = row.entry()?;
            out.add(kept)?;
        }
    }
    Ok(out)
}
