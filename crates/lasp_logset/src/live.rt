//! The live rows of a value.

ghost use Rattle.std.specs.Prelude.{◌≡◌, ℕ, ◌<◌, ◌≤◌, ◌↔◌, IsTrue, length};
ghost use Rattle.lasp_value.specs.Value.{val_of};
ghost use Rattle.lasp_logset.specs.Live.{IsLiveRow};

use super::key::compare_values;
use super::name::Name;
use indexmap::IndexMap;
use lasp_value::Value;

/// Whether there is a live row of a value at a place.
pub(crate) fn is_live_row(rows: &IndexMap<Name, bool>, place: usize, value: &Value) -> bool
    ensures { IsTrue result ↔ IsLiveRow rows.now.entries (val_of value.now) place }
{
    match rows.get_index(place) {
        Some((name, dead)) => is_of(name, value) && !*dead,
        None => false,
    }
}

/// Whether a key has the value.
pub(crate) fn is_of(name: &Name, value: &Value) -> bool
    ensures { IsTrue result ↔ (name.now.0 ≡ val_of value.now) }
{
    compare_values(name.value(), value).is_eq()
}

/// The first place from one on with a live row of a value, or one behind all rows.
pub(crate) fn scan_live(rows: &IndexMap<Name, bool>, begin: usize, value: &Value) -> usize
    ensures found { result < length rows.now.entries → IsLiveRow rows.now.entries (val_of value.now) result }
    ensures passed { (i : ℕ) → IsLiveRow rows.now.entries (val_of value.now) i → begin ≤ i → result ≤ i }
    ensures within { begin ≤ result }
{
    for place in begin..rows.len() {
        if is_live_row(rows, place, value) {
            return place;
        }
    }
    begin.max(rows.len())
}
