//! The values that a set shows.

ghost use Rattle.std.specs.Prelude.{◌≡◌, ◌++◌, None, IfOk, IfSome, OnOk, string_bytes};
ghost use Rattle.std.specs.Option.{option_map};
ghost use Rattle.std.specs.Ordering.{eq_by_cmp, as_partial_cmp};
ghost use Rattle.std.specs.Cmp.{partial_equiv_from_equiv};
ghost use Rattle.std.proofs.Common.{refl};
ghost use Rattle.model_values.specs.Value.{val_cmp, val_total};
ghost use Rattle.model_values.specs.Text.{shown_values};
ghost use Rattle.model_sets.specs.Rows.{of_rows};
ghost use Rattle.model_sets.specs.Values.{live_values, visible};
ghost use Rattle.lasp_value.specs.Value.{val_of};
ghost use Rattle.lasp_logset.specs.Few.{IsStanding};
ghost use Rattle.lasp_logset.specs.Live.{IsLiveRow};
ghost use Rattle.lasp_logset.specs.Orders.{val_equivalence, val_order};
ghost use Rattle.lasp_logset.specs.Shown.{order_behind, thinned, rises, shown_next};

use super::key::compare_values;
use super::name::Name;
use super::orset::{Kept, OrSet};
use super::rows::TableRow;
use super::set::LogSet;
use indexmap::IndexMap;
use lasp_value::{Value, Values, print_into};
use std::alloc::{AllocError, Global};
use std::cmp::Ordering;
use std::marker::Model;

/// A value where it stands in a set.
#[derive(Drop)]
pub(crate) struct Shown<'a> {
    value: &'a Value,
}

impl<'a> Model for Shown<'a> {
    ghost use Rattle.model_values.specs.Value.{Val, coded_val};
    ghost use Rattle.lasp_value.specs.Value.{val_of};

    ghost Value = { Val };

    ghost coded = { coded_val };

    ghost view = { λ a. val_of a.value.now };
}

impl<'a> Shown<'a> {
    fn of(value: &'a Value) -> Shown<'a>
        ensures { result ≡ val_of value.now }
    {
        Shown { value }
    }
}

impl PartialEq for Shown<'_> {
    ghost eq = { eq_by_cmp val_cmp };

    ghost laws = { partial_equiv_from_equiv val_equivalence };

    fn eq(&self, other: &Self) -> bool {
        self.cmp(other).is_eq()
    }
}

impl Eq for Shown<'_> {
    ghost laws = { val_equivalence };
}

impl Ord for Shown<'_> {
    ghost cmp = { val_cmp };

    ghost total = { val_total };

    ghost matches_partial_cmp = { λ _ _. refl };

    ghost matches_eq = { λ _ _. refl };

    fn cmp(&self, other: &Self) -> Ordering {
        compare_values(self.value, other.value)
    }
}

impl PartialOrd for Shown<'_> {
    ghost partial_cmp = { as_partial_cmp val_cmp };

    ghost laws = { val_order };

    fn partial_cmp(&self, other: &Self) -> Option<Ordering> {
        Some(self.cmp(other))
    }
}

impl OrSet {
    /// The visible values where they stand, ascending, each once. Of a table whose values are few, and were all found by `order_rows`, it costs a comparison for each value; of one with rows in order, or of one value, it costs a comparison for each live row, else a sort of those that differ from the one before; of a log alone what `sorted` does.
    pub(crate) fn shown(&self) -> Result<Vec<Shown<'_>>, AllocError>
        ensures { IfOk result (λ values. values.items ≡ visible self.now) }
    {
        self.ascends();
        match &self.kept {
            Kept::Whole(set) => set.shown(),
            Kept::Past(_) => {
                let sorted = self.sorted()?;
                shown_of(self.allocator(), sorted.as_slice())
            }
        }
    }
}

impl LogSet {
    /// As `OrSet::shown` does.
    pub(crate) fn shown(&self) -> Result<Vec<Shown<'_>>, AllocError>
        ensures { IfOk result (λ values. values.items ≡ visible (of_rows self.now)) }
    {
        let alloc = self.allocator();
        let (rows, few) = self.looked();
        if let Some(found) = few.shown(alloc, rows)? {
            return Ok(found);
        }
        let (mut values, ascend) = live_values(alloc, self.parts().0)?;
        if ascend {
            return Ok(values);
        }
        values.sort()?;
        each_once(alloc, values.as_slice())
    }
}

/// The values of live rows as they stand in a table, but those that repeat the one before, and whether they ascend.
fn live_values(
    alloc: Global,
    rows: &IndexMap<Name, bool>,
) -> Result<(Vec<Shown<'_>>, bool), AllocError>
    ensures values { IfOk result (λ p. p.0.items ≡ thinned None (live_values rows.now.entries)) }
    ensures ascend { IfOk result (λ p. p.1 ≡ rises None (live_values rows.now.entries)) }
{
    let mut values = Vec::new(alloc);
    let mut ascend = true;
    let mut last: Option<&Value> = None;
    let mut left = rows.iter();
    while let Some((name, dead)) = left.next() {
        if *dead {
            continue;
        }
        let order = order_behind(last, name.value());
        if order.is_eq() {
            continue;
        }
        ascend = ascend && order.is_lt();
        values.push(Shown::of(name.value()))?;
        last = Some(name.value());
    }
    Ok((values, ascend))
}

/// The values of the rows at places, if all of them live and ascend.
pub(crate) fn standing_values<'a>(
    alloc: Global,
    rows: &'a IndexMap<Name, bool>,
    places: &[usize],
) -> Result<Option<Vec<Shown<'a>>>, AllocError>
    ensures { IfOk result (λ found. IfSome found (λ values. IsStanding rows.now.entries places.now values.items)) }
{
    let mut values = Vec::with_capacity(alloc, places.len())?;
    let mut last: Option<&Value> = None;
    for place in places {
        let Some(value) = live_value(rows, *place) else {
            return Ok(None);
        };
        if !order_behind(last, value).is_lt() {
            return Ok(None);
        }
        values.push(Shown::of(value))?;
        last = Some(value);
    }
    Ok(Some(values))
}

/// The value of the row at a place, if it lives.
fn live_value(rows: &IndexMap<Name, bool>, place: usize) -> Option<&Value>
    ensures { IfSome result (λ value. IsLiveRow rows.now.entries (val_of value.now) place) }
{
    match rows.get_index(place) {
        Some((name, dead)) if !*dead => Some(name.value()),
        _ => None,
    }
}

/// The values of live rows, but those that repeat the one before.
fn shown_of<'a>(alloc: Global, rows: &[TableRow<'a>]) -> Result<Vec<Shown<'a>>, AllocError>
    ensures { IfOk result (λ values. values.items ≡ thinned None (live_values rows.now)) }
{
    let mut values = Vec::new(alloc);
    let mut last: Option<&Value> = None;
    for row in rows {
        if row.is_dead() || order_behind(last, row.value()).is_eq() {
            continue;
        }
        values.push(Shown::of(row.value()))?;
        last = Some(row.value());
    }
    Ok(values)
}

/// The values but those that repeat the one before.
fn each_once<'a>(alloc: Global, values: &[Shown<'a>]) -> Result<Vec<Shown<'a>>, AllocError>
    ensures { IfOk result (λ once. once.items ≡ thinned None values.now) }
{
    let mut once = Vec::with_capacity(alloc, values.len())?;
    let mut last: Option<&Value> = None;
    for shown in values {
        if order_behind(last, shown.value).is_eq() {
            continue;
        }
        once.push(Shown::of(shown.value))?;
        last = Some(shown.value);
    }
    Ok(once)
}

/// How the value before compares with the next one: as less, where there is none.
fn order_behind(last: Option<&Value>, value: &Value) -> Ordering
    ensures { result ≡ order_behind (option_map (λ v. val_of v.now) last.entry) (val_of value.now) }
{
    match last {
        Some(before) => compare_values(before, value),
        None => Ordering::Less,
    }
}

/// Copies of the values.
pub(crate) fn copies(alloc: Global, shown: &[Shown<'_>]) -> Result<Values, AllocError>
    ensures { IfOk result (λ values. values ≡ shown.now) }
{
    let mut values = Values::new(alloc);
    for next in shown {
        values.push(next.value.try_clone(alloc)?)?;
    }
    Ok(values)
}

/// Appends values as a JSON array.
pub(crate) fn print_all(shown: &[Shown<'_>], out: &mut String) -> Result<(), AllocError>
    ensures { OnOk result (string_bytes out.new ≡ string_bytes out.old ++ shown_values shown.now) }
{
    out.push('[')?;
    let mut is_behind = false;
    for next in shown {
        print_next(out, is_behind, next.value)?;
        is_behind = true;
    }
    out.push(']')
}

/// Appends a value, behind a comma where it isn't the first.
fn print_next(out: &mut String, is_behind: bool, value: &Value) -> Result<(), AllocError>
    ensures { OnOk result (string_bytes out.new ≡ string_bytes out.old ++ shown_next is_behind (val_of value.now)) }
{
    if is_behind {
        out.push(',')?;
    }
    print_into(out, value)
}
