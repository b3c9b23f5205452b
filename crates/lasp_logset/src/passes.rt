//! What a log tells where there is no table and no memory for one: each row costs a pass.

ghost use Rattle.std.specs.Prelude.{◌≡◌, ◌≤◌, ◌^◌, ◌+◌, ◌↔◌, ◌++◌, ◌&&◌, [], IsTrue, length, nat_lt, nat_le};
ghost use Rattle.std.specs.List.{list_any};
ghost use Rattle.std.specs.Ordering.{eq_by_cmp};
ghost use Rattle.model_values.specs.Row.{key_cmp};
ghost use Rattle.model_sets.specs.Rows.{level, mark, of_rows, is_of};
ghost use Rattle.model_sets.specs.Equations.{changed};
ghost use Rattle.model_sets.specs.Reads.{is_row_of};
ghost use Rattle.model_sets.specs.Values.{IsHeld, visible};
ghost use Rattle.lasp_value.specs.Value.{val_of};

use super::changes::Changes;
use super::entry::Entry;
use super::name::Name;
use lasp_log::Items;
use lasp_value::Value;

/// Whether a row of this key tells more than those that are left of a pass.
pub(crate) fn is_raised(rows: Items<'_, Entry>, name: &Name, dead: bool) -> bool
    ensures { result ≡ nat_lt (mark rows.entry name.now.0 name.now.1) (level dead) }
{
    let mut left = rows;
    while let Some(entry) = left.next() {
        if tells(entry, name, dead) {
            return false;
        }
    }
    true
}

/// Whether a row has the key, and is dead where that is asked for.
fn tells(entry: &Entry, name: &Name, dead: bool) -> bool
    ensures { result ≡ (eq_by_cmp key_cmp name.now entry.now.0 && nat_le (level dead) (level entry.now.1)) }
{
    *name == *entry.name() && (entry.is_dead() || !dead)
}

/// Whether no row of another log tells more than a log.
pub(crate) fn brings_nothing_to(log: &Changes, other: &Changes) -> bool
    ensures { IsTrue result ↔ (changed log.now.items other.now.items ≡ []) }
{
    let mut left = other.iter();
    while let Some(entry) = left.next() {
        if is_raised(log.iter(), entry.name(), entry.is_dead()) {
            return false;
        }
    }
    true
}

/// Whether a value has a row in a log that didn't die.
pub(crate) fn has_live_in(log: &Changes, value: &Value) -> bool
    ensures { IsTrue result ↔ IsHeld (visible (of_rows log.now.items)) (val_of value.now) }
{
    let mut left = log.iter();
    while let Some(entry) = left.next() {
        if is_live_of(log, entry, value) {
            return true;
        }
    }
    false
}

/// Whether a row of a log is of the value, and none of its key is dead.
fn is_live_of(log: &Changes, entry: &Entry, value: &Value) -> bool
    ensures { result ≡ (is_of (val_of value.now) entry.now && nat_lt (mark log.now.items entry.now.0.0 entry.now.0.1) 2) }
{
    entry.is_of(value) && is_raised(log.iter(), entry.name(), true)
}

/// Whether a row that is left of a pass is of the value, and dead where `dead` is true.
pub(crate) fn has_row_in(rows: Items<'_, Entry>, value: &Value, dead: bool) -> bool
    ensures { result ≡ list_any (is_row_of (val_of value.now) dead) rows.entry }
{
    let mut left = rows;
    while let Some(entry) = left.next() {
        if is_as(entry, value, dead) {
            return true;
        }
    }
    false
}

/// Whether a row is of the value, and dead where `dead` is true.
fn is_as(entry: &Entry, value: &Value, dead: bool) -> bool
    ensures { result ≡ is_row_of (val_of value.now) dead entry.now }
{
    entry.is_of(value) && (entry.is_dead() || !dead)
}

/// Whether neither the rows that are left of a pass nor those of a log have the key of a row.
fn is_alone(rest: Items<'_, Entry>, log: &Changes, entry: &Entry) -> bool
    ensures { result ≡ (nat_lt (mark rest.entry entry.now.0.0 entry.now.0.1) 1 && nat_lt (mark log.now.items entry.now.0.0 entry.now.0.1) 1) }
{
    is_raised(rest, entry.name(), false) && is_raised(log.iter(), entry.name(), false)
}

/// How many rows a log has more behind another one than that one alone.
pub(crate) fn count_more(log: &Changes, other: &Changes) -> u64
    requires { length other.now.items ≤ 2 ^ 32 }
    ensures exact { result + length (of_rows log.now.items) ≡ length (of_rows (other.now.items ++ log.now.items)) }
    ensures few { result ≤ length other.now.items }
{
    let mut count = 0u64;
    let mut left = other.iter();
    while let Some(entry) = left.next() {
        if is_alone(left.rest(), log, entry) {
            count += 1;
        }
    }
    count
}
