//! The rows of a set, of which each value stands once.

ghost use Rattle.std.specs.Prelude.{◌≡◌, ◌≤◌, ◌^◌, IfOk, length};
ghost use Rattle.lasp_wire.specs.Prelude.{option_map, spelled_rows, val_of, head_len, row_len};

use super::values::{token_len, value_len};
use crate::write::is_first;
use lasp_logset::{OrSet, TableRow};
use lasp_value::Value;
use std::alloc::AllocError;

/// The value and the number of its rows, where the row is its first.
fn head_len(before: Option<&Value>, row: &TableRow) -> u64
    requires { head_len (option_map (λ v. val_of v.now) before) row.now ≤ 2 ^ 32 }
    ensures { result ≡ head_len (option_map (λ v. val_of v.now) before.entry) row.now }
{
    if !is_first(before, row) {
        return 0;
    }
    value_len(row.value()) + 4
}

/// A row, with what stands before it.
fn row_len(before: Option<&Value>, row: &TableRow) -> u64
    requires { row_len (option_map (λ v. val_of v.now) before) row.now ≤ 2 ^ 32 }
    ensures { result ≡ row_len (option_map (λ v. val_of v.now) before.entry) row.now }
{
    head_len(before, row) + token_len(row.token()) + 1
}

/// The number of values, and the rows. It sorts these.
pub fn set_len(set: &OrSet) -> Result<u64, AllocError>
    requires { length (spelled_rows set.now) ≤ 2 ^ 32 }
    ensures { IfOk result (λ n. n ≡ length (spelled_rows set.now)) }
{
    let mut len = 4;
    let mut before: Option<&Value> = None;
    let mut rows = set.in_order()?;
    while let Some(row) = rows.next() {
        len += row_len(before, &row);
        before = Some(row.value());
    }
    Ok(len)
}
