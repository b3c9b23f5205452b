//! Each process after its inputs changed: from the result before, the changed rows, and for two inputs the sets as they are now. The cost is that of the changed rows and of the rows that they give, and a share of the log of the result: what a change gives is made apart and joined in at once.

ghost use Rattle.std.specs.Prelude.{◌≡◌, ◌<◌, ◌≤◌, ◌+◌, Err, IfOk, IsTrue, List, length};
ghost use Rattle.lasp_setops.specs.Prelude.{Row, mapped, passes, join, IsAtMost, map_set, filter_set, union_set, product_set, intersect_set, pair_set, row_limit, maps_of, predicates_of, map_ops_at, pred_ops_at, library_of, ticks_of, IsSetOfWidth, IsGrown};

use crate::counted::{filter_counted, map_counted};
use crate::pairs::{Pairing, Side};
use crate::refused::SetRefused;
use crate::union::{joined, union_sets};
use lasp_fns::StepLib;
use lasp_logset::OrSet;
use std::alloc::{AllocError, Global};

/// The map by the function at a place after a change, from the map before. It calls the function at most once for each changed row.
pub fn map_increment(
    alloc: Global,
    lib: &mut StepLib,
    f: u32,
    old: &OrSet,
    change: &OrSet,
) -> Result<OrSet, AllocError>
    requires place { f < length (maps_of (library_of lib.old)) }
    requires width { IsSetOfWidth 16 change.now }
    ensures ok { IfOk result (λ s. (before after : List Row) → IsGrown before change.now after → old.now ≡ map_set (mapped (map_ops_at (library_of lib.old) f)) before → s ≡ map_set (mapped (map_ops_at (library_of lib.old) f)) after) }
    ensures library { library_of lib.new ≡ library_of lib.old }
    ensures ticks { ticks_of lib.new ≤ ticks_of lib.old + length change.now }
{
    let more = map_counted(alloc, lib, f, change)?;
    let mut all = old.try_clone()?;
    all.join_in(&more)?;
    Ok(all)
}

/// The filter by the predicate at a place after a change, from the filter before. It calls the predicate once for each changed row.
pub fn filter_increment(
    lib: &mut StepLib,
    p: u32,
    old: &OrSet,
    change: &OrSet,
) -> Result<OrSet, AllocError>
    requires place { p < length (predicates_of (library_of lib.old)) }
    requires width { IsSetOfWidth 16 change.now }
    ensures ok { IfOk result (λ s. (before after : List Row) → IsGrown before change.now after → old.now ≡ filter_set (passes (pred_ops_at (library_of lib.old) p)) before → s ≡ filter_set (passes (pred_ops_at (library_of lib.old) p)) after) }
    ensures library { library_of lib.new ≡ library_of lib.old }
    ensures ticks { ticks_of lib.new ≤ ticks_of lib.old + length change.now }
{
    let more = filter_counted(lib, p, change)?;
    let mut all = old.try_clone()?;
    change.ascends();
    all.join_in(&more)?;
    Ok(all)
}

/// The union after changes of its inputs, from the union before.
pub fn union_increment(old: &OrSet, x_change: &OrSet, y_change: &OrSet) -> Result<OrSet, SetRefused>
    ensures ok { IfOk result (λ s. (x x_after y y_after : List Row) → IsGrown x x_change.now x_after → IsGrown y y_change.now y_after → old.now ≡ union_set x y → s ≡ union_set x_after y_after) }
    ensures small { IfOk result (λ s. length s ≤ row_limit) }
    ensures too_many { result ≡ Err SetRefused.TooManyRows → (x x_after y y_after : List Row) → IsGrown x x_change.now x_after → IsGrown y y_change.now y_after → old.now ≡ union_set x y → row_limit < length (union_set x_after y_after) }
{
    let gain = joined(x_change, y_change)?;
    union_sets(old, &gain)
}

/// The product after changes of its inputs, from the product before. The sets are those after the changes.
pub fn product_increment(
    alloc: Global,
    old: &OrSet,
    x: &OrSet,
    x_change: &OrSet,
    y: &OrSet,
    y_change: &OrSet,
) -> Result<OrSet, SetRefused>
    ensures ok { IfOk result (λ s. (x_before y_before : List Row) → IsGrown x_before x_change.now x.now → IsGrown y_before y_change.now y.now → old.now ≡ product_set x_before y_before → s ≡ product_set x.now y.now) }
    ensures small { IfOk result (λ s. length s ≤ row_limit) }
    ensures too_many { result ≡ Err SetRefused.TooManyRows → (x_before y_before : List Row) → IsGrown x_before x_change.now x.now → IsGrown y_before y_change.now y.now → old.now ≡ product_set x_before y_before → row_limit < length (product_set x.now y.now) }
{
    pair_increment(alloc, Pairing::Product, old, x, x_change, y, y_change)
}

/// The intersection after changes of its inputs, from the intersection before. The sets are those after the changes.
pub fn intersect_increment(
    alloc: Global,
    old: &OrSet,
    x: &OrSet,
    x_change: &OrSet,
    y: &OrSet,
    y_change: &OrSet,
) -> Result<OrSet, SetRefused>
    ensures ok { IfOk result (λ s. (x_before y_before : List Row) → IsGrown x_before x_change.now x.now → IsGrown y_before y_change.now y.now → old.now ≡ intersect_set x_before y_before → s ≡ intersect_set x.now y.now) }
    ensures small { IfOk result (λ s. length s ≤ row_limit) }
    ensures too_many { result ≡ Err SetRefused.TooManyRows → (x_before y_before : List Row) → IsGrown x_before x_change.now x.now → IsGrown y_before y_change.now y.now → old.now ≡ intersect_set x_before y_before → row_limit < length (intersect_set x.now y.now) }
{
    pair_increment(alloc, Pairing::Intersection, old, x, x_change, y, y_change)
}

/// The product or the intersection after changes, from that before.
fn pair_increment(
    alloc: Global,
    pairing: Pairing,
    old: &OrSet,
    x: &OrSet,
    x_change: &OrSet,
    y: &OrSet,
    y_change: &OrSet,
) -> Result<OrSet, SetRefused>
    ensures ok { IfOk result (λ s. (x_before y_before : List Row) → IsGrown x_before x_change.now x.now → IsGrown y_before y_change.now y.now → old.now ≡ pair_set pairing x_before y_before → s ≡ pair_set pairing x.now y.now) }
    ensures small { IfOk result (λ s. length s ≤ row_limit) }
    ensures too_many { result ≡ Err SetRefused.TooManyRows → (x_before y_before : List Row) → IsGrown x_before x_change.now x.now → IsGrown y_before y_change.now y.now → old.now ≡ pair_set pairing x_before y_before → row_limit < length (pair_set pairing x.now y.now) }
{
    let gain = pair_gain(alloc, pairing, x, x_change, y, y_change)?;
    union_sets(old, &gain)
}

/// What changes of both sets give to what is made of the two: each row that changed with the rows that the other set has now. It costs the changed rows and the rows that they give. Where all rows of the first set changed, as at first, those that changed in the second meet no other ones and aren't gone through.
pub fn pair_gain(
    alloc: Global,
    pairing: Pairing,
    x: &OrSet,
    x_change: &OrSet,
    y: &OrSet,
    y_change: &OrSet,
) -> Result<OrSet, SetRefused>
    ensures ok { IfOk result (λ s. s ≡ join (pair_set pairing x_change.now y.now) (pair_set pairing x.now y_change.now)) }
    ensures too_many { result ≡ Err SetRefused.TooManyRows → row_limit < length (join (pair_set pairing x_change.now y.now) (pair_set pairing x.now y_change.now)) }
{
    let mut rows = pairing.of(alloc, x_change, y)?;
    if has_all(x, x_change, y, y_change) {
        return Ok(rows);
    }
    pairing.add(alloc, &mut rows, Side::Second, y_change, x)?;
    Ok(rows)
}

/// Whether all rows of the first set changed, and those of the second are among it. It costs a look-up for each changed row at most.
fn has_all(x: &OrSet, x_change: &OrSet, y: &OrSet, y_change: &OrSet) -> bool
    ensures first { IsTrue result → IsAtMost x.now x_change.now }
    ensures second { IsTrue result → IsAtMost y_change.now y.now }
{
    x.le(x_change) && y_change.le(y)
}
