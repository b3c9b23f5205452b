//! The rows of a set: each value once, with the number of its tokens, and then these.

ghost use Rattle.std.specs.Prelude.{◌≡◌, ◌<◌, ◌≤◌, ◌++◌, suc, IfOk, OnOk, None, length, map};
ghost use Rattle.lasp_wire.specs.Prelude.{AllByRecursion, option_map, number, truth, spelled_value, spelled_rows, val_of, spelled_mark, run, is_first, spelled_head, spelled_after, values_after, IsShort, AreShortRows};

use super::numbers::{put_bool, put_u32};
use super::values::{put_token, put_value};
use lasp_logset::{OrSet, TableRow};
use lasp_value::Value;
use std::alloc::AllocError;

/// How many rows at the front are of a value.
fn run(value: &Value, rows: &[TableRow]) -> u32
    requires { length rows.now ≤ 65536 }
    ensures exact { result ≡ run (val_of value.now) rows.now }
    ensures few { result ≤ length rows.now }
{
    let mut count = 0;
    for row in rows {
        if !row.is_of(value) {
            return count;
        }
        count += 1;
    }
    count
}

/// Whether a row is of another value than the one before it.
pub fn is_first(before: Option<&Value>, row: &TableRow) -> bool
    ensures { result ≡ is_first (option_map (λ v. val_of v.now) before.entry) row.now }
{
    match before {
        Some(value) => !row.is_of(value),
        None => true,
    }
}

/// The number of values.
fn values_in(rows: &[TableRow]) -> u32
    requires { length rows.now ≤ 65536 }
    ensures { result ≡ values_after None rows.now }
{
    let mut count = 0;
    let mut before: Option<&Value> = None;
    for row in rows {
        if is_first(before, row) {
            count += 1;
        }
        before = Some(row.value());
    }
    count
}

/// The token of a row, and whether it is dead.
fn put_mark(out: &mut Vec<u8>, row: &TableRow) -> Result<(), AllocError>
    ensures { OnOk result (out.new.items ≡ out.old.items ++ spelled_mark row.now) }
{
    put_token(out, row.token())?;
    put_bool(out, row.is_dead())
}

/// The value and the number of its rows, where the row is its first.
fn put_head(
    out: &mut Vec<u8>,
    before: Option<&Value>,
    row: &TableRow,
    rows: &[TableRow],
) -> Result<(), AllocError>
    requires short { IsShort row.now.0.0 }
    requires few { length rows.now < 65536 }
    ensures { OnOk result (out.new.items ≡ out.old.items ++ spelled_head (option_map (λ v. val_of v.now) before.entry) row.now rows.now) }
{
    if !is_first(before, row) {
        return Ok(());
    }
    put_value(out, row.value())?;
    put_u32(out, run(row.value(), rows) + 1)
}

/// A row, with what stands before it.
fn put_row(
    out: &mut Vec<u8>,
    before: Option<&Value>,
    row: &TableRow,
    rows: &[TableRow],
) -> Result<(), AllocError>
    requires short { IsShort row.now.0.0 }
    requires few { length rows.now < 65536 }
    ensures { OnOk result (out.new.items ≡ out.old.items ++ (spelled_head (option_map (λ v. val_of v.now) before.entry) row.now rows.now ++ spelled_mark row.now)) }
{
    put_head(out, before, row, rows)?;
    put_mark(out, row)
}

fn put_rows(out: &mut Vec<u8>, rows: &[TableRow]) -> Result<(), AllocError>
    requires { AreShortRows rows.now }
    ensures { OnOk result (out.new.items ≡ out.old.items ++ spelled_after None rows.now) }
{
    let mut before: Option<&Value> = None;
    for i in 0..rows.len() {
        let (_, behind) = rows.split_at(i + 1);
        put_row(out, before, &rows[i], behind)?;
        before = Some(rows[i].value());
    }
    Ok(())
}

/// The number of values, and the rows.
fn put_grouped(out: &mut Vec<u8>, rows: &[TableRow]) -> Result<(), AllocError>
    requires { AreShortRows rows.now }
    ensures { OnOk result (out.new.items ≡ out.old.items ++ (number 4 (values_after None rows.now) ++ spelled_after None rows.now)) }
{
    put_u32(out, values_in(rows))?;
    put_rows(out, rows)
}

/// The rows of a set. It costs one list of their addresses, which is sorted.
pub fn put_set(out: &mut Vec<u8>, set: &OrSet) -> Result<(), AllocError>
    requires { AreShortRows set.now }
    ensures { OnOk result (out.new.items ≡ out.old.items ++ spelled_rows set.now) }
{
    let rows = set.sorted()?;
    put_grouped(out, &rows)
}
