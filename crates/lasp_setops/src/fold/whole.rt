//! The number of a whole set.

ghost use Rattle.std.specs.Prelude.{◌≡◌, ◌||◌, IfOk};
ghost use Rattle.lasp_setops.specs.Prelude.{option_map, fold_set, val_of, is_last, lift_of, IsWithinLimits, taken_lift};

use super::group::FoldGroup;
use super::step::turned;
use super::turns::is_same;
use lasp_fns::StoredLift;
use lasp_logset::{OrSet, TableRow};
use lasp_value::Value;
use std::alloc::AllocError;

/// The fold of the visible values, each value once. It sorts the rows, and calls the lift for each visible value.
pub fn fold_all<G: FoldGroup>(g: &G, lift: &StoredLift, x: &OrSet) -> Result<i128, AllocError>
    requires { IsWithinLimits x.now }
    ensures { IfOk result (λ n. n ≡ fold_set (G.combined g.now) (G.unit g.now) (taken_lift (G.taken g.now) (lift_of lift.now)) x.now) }
{
    g.known();
    x.ascends();
    x.recall_ints();
    let mut total = g.neutral();
    let mut last: Option<&Value> = None;
    let mut rows = x.in_order()?;
    while let Some(row) = rows.next() {
        if is_passed(last, &row) {
            continue;
        }
        let value = row.value();
        let n = lift.call(value);
        total = turned(g, total, n, true);
        last = Some(value);
    }
    Ok(total)
}

/// Whether the row shows no value, or the one that was taken last.
fn is_passed(last: Option<&Value>, row: &TableRow) -> bool
    ensures { result ≡ (row.now.1 || is_last (option_map (λ v. val_of v.now) last.entry) row.now.0.0) }
{
    row.is_dead() || is_same(last, row.value())
}
