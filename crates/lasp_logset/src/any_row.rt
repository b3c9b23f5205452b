//! Whether a value has a row: by the chain that leads to its rows, and by a pass over the rows that came since.

ghost use Rattle.std.specs.Prelude.{◌≡◌, ℕ, false, ◌<◌, ◌≤◌, IsTrue, length, slice_get};
ghost use Rattle.std.specs.List.{list_any};
ghost use Rattle.model_sets.specs.Reads.{is_row_of};
ghost use Rattle.lasp_value.specs.Value.{val_of};
ghost use Rattle.lasp_logset.specs.Places.{AreFound, is_row_as};

use super::name::Name;
use super::places::Places;
use super::reads::is_row_of;
use super::rows::TableRow;
use indexmap::IndexMap;
use lasp_value::Value;

/// Whether a value has a row, and a dead one where `dead` is true.
pub(crate) fn has_row_of(
    rows: &IndexMap<Name, bool>,
    places: &Places,
    value: &Value,
    dead: bool,
) -> bool
    requires { AreFound rows.now.entries places.now.newest.entries places.now.older.items }
    ensures { result ≡ list_any (is_row_of (val_of value.now) dead) rows.now.entries }
{
    if has_in_chain(rows, places, value, dead) {
        return true;
    }
    has_from(rows, places.older.len(), value, dead)
}

/// Whether the chain of a value leads to such a row.
fn has_in_chain(rows: &IndexMap<Name, bool>, places: &Places, value: &Value, dead: bool) -> bool
    requires { AreFound rows.now.entries places.now.newest.entries places.now.older.items }
    ensures some { IsTrue result → (i : ℕ) × IsTrue (is_row_as (val_of value.now) dead (slice_get rows.now.entries i)) }
    ensures none { result ≡ false → (i : ℕ) → IsTrue (is_row_as (val_of value.now) dead (slice_get rows.now.entries i)) → length places.now.older.items ≤ i }
{
    let mut behind = places.newest_row(rows, value);
    while behind > 0 {
        let row = behind - 1;
        if is_row_as(rows, row, value, dead) {
            return true;
        }
        behind = places.row_before(rows, row, value);
    }
    false
}

/// Whether there is such a row from a place on.
fn has_from(rows: &IndexMap<Name, bool>, begin: usize, value: &Value, dead: bool) -> bool
    ensures some { IsTrue result → (i : ℕ) × IsTrue (is_row_as (val_of value.now) dead (slice_get rows.now.entries i)) }
    ensures none { result ≡ false → (i : ℕ) → IsTrue (is_row_as (val_of value.now) dead (slice_get rows.now.entries i)) → i < begin }
{
    for place in begin..rows.len() {
        if is_row_as(rows, place, value, dead) {
            return true;
        }
    }
    false
}

/// Whether there is such a row at a place.
fn is_row_as(rows: &IndexMap<Name, bool>, place: usize, value: &Value, dead: bool) -> bool
    ensures { result ≡ is_row_as (val_of value.now) dead (slice_get rows.now.entries place) }
{
    match rows.get_index(place) {
        Some((name, is_dead)) => is_row_of(&TableRow::of(name, *is_dead), value, dead),
        None => false,
    }
}
