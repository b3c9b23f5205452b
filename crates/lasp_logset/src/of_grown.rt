//! The rows of a value in a log that begins as that of a table does: by the table, and by a pass over what stands behind it.

ghost use Rattle.std.specs.Prelude.{◌≡◌, ◌==◌, ◌↔◌, if◌then◌else◌, [], filter, IfOk, IfSome, OnOk, IsTrue};
ghost use Rattle.std.specs.Ordering.{eq_by_cmp};
ghost use Rattle.std.specs.Option.{option_map_or};
ghost use Rattle.std.specs.Arc.{arc_value};
ghost use Rattle.model_values.specs.Value.{Val, val_cmp};
ghost use Rattle.model_values.specs.Token.{Tok};
ghost use Rattle.model_sets.specs.Rows.{mark, of_rows, join, is_of, remove_delta};
ghost use Rattle.model_sets.specs.Rises.{AreApart};
ghost use Rattle.model_sets.specs.Reads.{HasRowOf};
ghost use Rattle.lasp_value.specs.Value.{val_of};

use super::asked::Asked;
use super::entry::Entry;
use super::grown::Grown;
use super::near_grown::NearGrown;
use super::passes::has_row_in;
use super::set::LogSet;
use lasp_log::Items;
use lasp_value::Value;
use std::alloc::{AllocError, Global};
use std::sync::Arc;

impl Grown {
    /// Whether the value has a row, and a dead one where `dead` is true. It costs what `LogSet::has_row` does, and a pass over what stands behind the table.
    pub(crate) fn has_row(&self, value: &Value, dead: bool) -> bool
        ensures { IsTrue result ↔ HasRowOf self.now (val_of value.now) dead }
    {
        let (begin, behind) = self.parts();
        if begin_has_row(begin, value, dead) {
            return true;
        }
        has_row_in(behind, value, dead)
    }

    /// The rows of a value, with those that stand behind the table, where there is one and these are few.
    pub(crate) fn near<'a>(&'a self, value: &'a Value) -> Option<NearGrown<'a>>
        ensures rows { IfSome result (λ rows. filter (is_of (val_of value.now)) (of_rows rows) ≡ filter (is_of (val_of value.now)) (of_rows self.now)) }
        ensures apart { IfSome result (λ rows. AreApart rows) }
    {
        if !self.is_short(0) {
            return None;
        }
        let (begin, behind) = self.parts();
        match begin {
            Some(set) => Some(NearGrown::of(set.near(value), behind, Asked::behind(self))),
            None => None,
        }
    }

    /// What removes a value: of the table its live rows, and its rows behind, each dead. It costs what `LogSet::remove_delta` does, and a pass over what stands behind the table.
    pub(crate) fn bury_delta(&self, value: &Value) -> Result<LogSet, AllocError>
        ensures { IfOk result (λ d. join (of_rows self.now) d ≡ join (of_rows self.now) (remove_delta (val_of value.now) (of_rows self.now))) }
    {
        let (begin, behind) = self.parts();
        let mut delta = bury_begin(self.allocator(), begin, value)?;
        bury_behind(behind, value, &mut delta)?;
        Ok(delta)
    }
}

/// Whether a table, if there is one, has such a row.
fn begin_has_row(begin: &Option<Arc<LogSet>>, value: &Value, dead: bool) -> bool
    ensures { IsTrue result ↔ HasRowOf (option_map_or arc_value begin.now []) (val_of value.now) dead }
{
    match begin {
        Some(set) => set.has_row(value, dead),
        None => false,
    }
}

/// The live rows of a value in a table, if there is one, each dead.
fn bury_begin(
    alloc: Global,
    begin: &Option<Arc<LogSet>>,
    value: &Value,
) -> Result<LogSet, AllocError>
    ensures { IfOk result (λ d. (u : Val) (t : Tok) → mark d u t ≡ (if eq_by_cmp val_cmp (val_of value.now) u then (if mark (option_map_or arc_value begin.now []) u t == 1 then 2 else 0) else 0)) }
{
    match begin {
        Some(set) => set.remove_delta(value),
        None => Ok(LogSet::new(alloc)),
    }
}

/// Puts those rows that are left of a pass and are of a value into a set, each dead.
fn bury_behind(rows: Items<'_, Entry>, value: &Value, delta: &mut LogSet) -> Result<(), AllocError>
    ensures { OnOk result (of_rows delta.new ≡ join (of_rows delta.old) (remove_delta (val_of value.now) rows.entry)) }
{
    let mut left = rows;
    while let Some(entry) = left.next() {
        if entry.is_of(value) {
            delta.add(entry.buried()?)?;
        }
    }
    Ok(())
}
