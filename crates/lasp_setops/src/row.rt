//! The rows that processes make of rows, and putting them into a result that may be too large.

ghost use Rattle.std.specs.Prelude.{◌≡◌, ◌<◌, ◌≤◌, Err, IfOk, OnOk, length};
ghost use Rattle.lasp_setops.specs.Prelude.{put, paired, met, row_limit, val_of, tok_of};
ghost use Rattle.model_values.specs.Token as tok;

use crate::refused::SetRefused;
use lasp_logset::{Entry, OrSet, TableRow};
use lasp_value::{Token, Value};
use std::alloc::{AllocError, Global};

/// The most rows that a set variable may have, dead ones counted.
const MOST_ROWS: u64 = 65_536;

/// The row with another value.
pub(crate) fn with_value(alloc: Global, row: &TableRow, value: Value) -> Result<Entry, AllocError>
    ensures { IfOk result (λ r. r ≡ ((val_of value, row.now.0.1), row.now.1)) }
{
    let token = row.token().try_clone(alloc)?;
    Entry::new(alloc, value, token, row.is_dead())
}

/// Two rows as one: both values and both tokens, dead where either is.
pub(crate) fn paired(alloc: Global, row: &TableRow, other: &TableRow) -> Result<Entry, AllocError>
    ensures { IfOk result (λ r. r ≡ paired row.now other.now) }
{
    let first = row.value().try_clone(alloc)?;
    let second = other.value().try_clone(alloc)?;
    let pair = Value::Pair(Box::new(alloc, first)?, Box::new(alloc, second)?);
    let token = both(alloc, row, other)?;
    Entry::new(alloc, pair, token, row.is_dead() || other.is_dead())
}

/// Two rows of one value as one: both tokens, dead where either is.
pub(crate) fn met(alloc: Global, row: &TableRow, other: &TableRow) -> Result<Entry, AllocError>
    ensures { IfOk result (λ r. r ≡ met row.now other.now) }
{
    let value = row.value().try_clone(alloc)?;
    let tokens = both(alloc, row, other)?;
    Entry::new(alloc, value, tokens, row.is_dead() || other.is_dead())
}

fn both(alloc: Global, row: &TableRow, other: &TableRow) -> Result<Token, AllocError>
    ensures { IfOk result (λ t. tok_of t ≡ tok.both row.now.0.1 other.now.0.1) }
{
    let first = row.token().try_clone(alloc)?;
    let second = other.token().try_clone(alloc)?;
    Ok(Token::Both(Box::new(alloc, first)?, Box::new(alloc, second)?))
}

/// Puts a row into a set, unless the set then has too many.
pub(crate) fn add_within(out: &mut OrSet, entry: Entry) -> Result<(), SetRefused>
    ensures ok { OnOk result (out.new ≡ put entry out.old) }
    ensures small { OnOk result (length out.new ≤ row_limit) }
    ensures too_many { result ≡ Err SetRefused.TooManyRows → row_limit < length (put entry out.old) }
{
    out.add(entry)?;
    check_rows(out)
}

/// Refuses a set of too many rows.
pub(crate) fn check_rows(set: &OrSet) -> Result<(), SetRefused>
    ensures ok { OnOk result (length set.now ≤ row_limit) }
    ensures too_many { result ≡ Err SetRefused.TooManyRows → row_limit < length set.now }
{
    if set.rows() > MOST_ROWS {
        return Err(SetRefused::TooManyRows);
    }
    Ok(())
}
