//! The filter of a set by a stored predicate.

ghost use Rattle.std.specs.Prelude.{◌≡◌, IfOk};
ghost use Rattle.lasp_setops.specs.Prelude.{passes, filter_set, conditions_of, IsSetOfWidth};

use lasp_fns::StoredPred;
use lasp_logset::OrSet;
use std::alloc::AllocError;

/// The rows whose value passes, live and dead ones. It costs a call and an insertion for each row; rows of texts, pairs and their tokens are shared.
pub fn filter_set(p: &StoredPred, x: &OrSet) -> Result<OrSet, AllocError>
    requires width { IsSetOfWidth 16 x.now }
    ensures { IfOk result (λ s. s ≡ filter_set (passes (conditions_of p.now)) x.now) }
{
    x.ascends();
    let mut out = x.empty();
    let mut rows = x.entries()?;
    while let Some(row) = rows.next() {
        let value = row.value();
        value.recall_ints();
        if p.call(value) {
            let kept = row.entry()?;
            out.add(kept)?;
        }
    }
    Ok(out)
}
