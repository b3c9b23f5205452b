//! The live rows of a value, found by its chain and, where that isn't up to date, by a pass over the rest, and what buries them.

ghost use Rattle.std.specs.Prelude.{◌≡◌, ℕ, false, ◌≤◌, ◌<◌, IsTrue, OnOk, length};
ghost use Rattle.lasp_value.specs.Value.{val_of};
ghost use Rattle.lasp_logset.specs.Chains.{AreChained};
ghost use Rattle.lasp_logset.specs.Live.{IsLiveRow, AreBuried, IsLeft, IsBuriedRow};

use super::chains::Chains;
use super::entry::Entry;
use super::live::scan_live;
use super::name::Name;
use super::set::LogSet;
use indexmap::IndexMap;
use lasp_value::Value;
use std::alloc::AllocError;

/// Whether a value has a live row.
pub(crate) fn has_live(rows: &IndexMap<Name, bool>, chains: &Chains, value: &Value) -> bool
    requires { AreChained rows.now.entries chains.now.newest.entries chains.now.older.items }
    ensures some { IsTrue result → (i : ℕ) × IsLiveRow rows.now.entries (val_of value.now) i }
    ensures none { result ≡ false → (i : ℕ) → ¬ IsLiveRow rows.now.entries (val_of value.now) i }
{
    if chains.newest_row(rows, value) > 0 {
        return true;
    }
    scan_live(rows, chains.older.len(), value) < rows.len()
}

/// Buries the live rows of a value to which its chain leads.
pub(crate) fn bury_chain(
    rows: &IndexMap<Name, bool>,
    chains: &Chains,
    value: &Value,
    delta: &mut LogSet,
) -> Result<(), AllocError>
    requires chained { AreChained rows.now.entries chains.now.newest.entries chains.now.older.items }
    requires buried { AreBuried rows.now.entries (val_of value.now) delta.old }
    ensures buried { OnOk result (AreBuried rows.now.entries (val_of value.now) delta.new) }
    ensures left { OnOk result ((i : ℕ) → IsLeft rows.now.entries (val_of value.now) delta.new i → length chains.now.older.items ≤ i) }
{
    let mut behind = chains.newest_row(rows, value);
    while behind > 0 {
        let row = behind - 1;
        bury(rows, row, value, delta)?;
        behind = chains.row_before(rows, row, value);
    }
    Ok(())
}

/// Buries the live rows of a value from a place on.
pub(crate) fn bury_rest(
    rows: &IndexMap<Name, bool>,
    begin: usize,
    value: &Value,
    delta: &mut LogSet,
) -> Result<(), AllocError>
    requires buried { AreBuried rows.now.entries (val_of value.now) delta.old }
    requires left { (i : ℕ) → IsLeft rows.now.entries (val_of value.now) delta.old i → begin ≤ i }
    ensures buried { OnOk result (AreBuried rows.now.entries (val_of value.now) delta.new) }
    ensures left { OnOk result ((i : ℕ) → ¬ IsLeft rows.now.entries (val_of value.now) delta.new i) }
{
    let mut place = scan_live(rows, begin, value);
    while place < rows.len() {
        bury(rows, place, value, delta)?;
        place = scan_live(rows, place + 1, value);
    }
    Ok(())
}

/// Puts the row at a place into a set, dead.
fn bury(
    rows: &IndexMap<Name, bool>,
    place: usize,
    value: &Value,
    delta: &mut LogSet,
) -> Result<(), AllocError>
    requires { IsLiveRow rows.now.entries (val_of value.now) place }
    ensures { OnOk result (IsBuriedRow rows.now.entries (val_of value.now) place delta.old delta.new) }
{
    let Some((name, _)) = rows.get_index(place) else {
        unreachable!()
    };
    delta.add(Entry::of(name.share()?, true))?;
    Ok(())
}
