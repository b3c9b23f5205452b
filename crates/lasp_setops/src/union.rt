//! The union of two sets.

ghost use Rattle.std.specs.Prelude.{◌≡◌, ◌<◌, ◌≤◌, IfOk, length};
ghost use Rattle.lasp_setops.specs.Prelude.{join, row_limit};

use crate::refused::SetRefused;
use crate::row::check_rows;
use lasp_logset::OrSet;
use std::alloc::AllocError;

/// The rows of either set, dead where dead in either. It costs a share of the larger set and a look-up for each row of the smaller one.
pub fn union_sets(x: &OrSet, y: &OrSet) -> Result<OrSet, SetRefused>
    ensures ok { IfOk result (λ s. s ≡ join x.now y.now) }
    ensures small { IfOk result (λ s. length s ≤ row_limit) }
    ensures too_many { result ≡ Err SetRefused.TooManyRows → row_limit < length (join x.now y.now) }
{
    let all = joined(x, y)?;
    check_rows(&all)?;
    Ok(all)
}

/// The rows of either set, however many.
pub(crate) fn joined(x: &OrSet, y: &OrSet) -> Result<OrSet, AllocError>
    ensures { IfOk result (λ s. s ≡ join x.now y.now) }
{
    if x.rows() < y.rows() {
        let mut all = y.try_clone()?;
        all.join_in(x)?;
        return Ok(all);
    }
    let mut all = x.try_clone()?;
    all.join_in(y)?;
    Ok(all)
}
