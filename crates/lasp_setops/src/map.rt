//! The map of a set by a stored function.

ghost use Rattle.std.specs.Prelude.{◌≡◌, IfOk};
ghost use Rattle.lasp_setops.specs.Prelude.{mapped, map_set, ops_of, IsSetOfWidth};

use crate::row::with_value;
use lasp_fns::StoredMap;
use lasp_logset::OrSet;
use std::alloc::{AllocError, Global};

/// The function's value of each row's value, under the row's token; dead where any row that gives it is dead.
/// It costs a call and a look-up for each row.
pub fn map_set(alloc: Global, f: &StoredMap, x: &OrSet) -> Result<OrSet, AllocError>
    requires width { IsSetOfWidth 16 x.now }
    ensures { IfOk result (λ s. s ≡ map_set (mapped (ops_of f.now)) x.now) }
{
    let mut out = x.empty();
    let mut rows = x.entries()?;
    while let Some(row) = rows.next() {
        let value = row.value();
        value.recall_ints();
        let image = f.call(value)?;
        let moved = with_value(alloc, &row, image)?;
        out.add(moved)?;
    }
    Ok(out)
}
