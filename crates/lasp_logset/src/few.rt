//! The visible values of a table where these are few: a row of each.

ghost use Rattle.std.specs.Prelude.{◌≡◌, ◌<◌, ◌≤◌, [], IfOk, IfSome, IfNone, length, slice_get};
ghost use Rattle.std.specs.declared.cmp.Ordering.TheVariants.{Equal};
ghost use Rattle.model_sets.specs.Values.{held, of_values, live_values};
ghost use Rattle.lasp_value.specs.Value.{val_of};
ghost use Rattle.lasp_logset.specs.Few.{value_of, values_at, AreSeen};

use super::chains::is_dead;
use super::key::compare_values;
use super::name::Name;
use super::shown::{Shown, standing_values};
use indexmap::IndexMap;
use lasp_value::Value;
use std::alloc::{AllocError, Global};
use std::cmp::Ordering;

/// More values than these aren't few, and of fewer rows a pass finds them.
const MOST: usize = 64;

#[derive(Drop)]
pub(crate) struct Few {
    /// Places of rows in the table, ascending by value: each value of a live row that was looked at has one.
    pub(crate) places: Vec<usize>,
    /// How many rows were looked at.
    pub(crate) upto: usize,
    /// How many rows there have to be before all are looked at anew.
    again: usize,
}

impl Few {
    /// No row was looked at. It takes no memory.
    pub(crate) fn new(alloc: Global) -> Few
        ensures places { result.places.items ≡ [] }
        ensures upto { result.upto ≡ 0 }
    {
        Few {
            places: Vec::new(alloc),
            upto: 0,
            again: MOST,
        }
    }

    /// Looks at the rows that came since, at a few comparisons for each live one. Where a row at the places died, or the values aren't few, all rows are looked at anew when there are half as many more as were at the last such look.
    pub(crate) fn follow(&mut self, rows: &IndexMap<Name, bool>)
        requires { AreSeen rows.now.entries self.old.places.items self.old.upto }
        ensures { AreSeen rows.now.entries self.new.places.items self.new.upto }
    {
        if has_dead(rows, self.places.as_slice()) {
            self.clear();
        }
        if self.upto > 0 || self.begins(rows.len()) {
            self.look(rows);
        }
    }

    /// Whether so many rows are worth a look at all of them.
    fn begins(&mut self, rows: usize) -> bool
        ensures places { self.new.places.items ≡ self.old.places.items }
        ensures upto { self.new.upto ≡ self.old.upto }
    {
        if rows < self.again {
            return false;
        }
        self.again = rows.saturating_add(rows / 2);
        true
    }

    /// Looks at the rows that came since, unless the values get many or memory is refused.
    fn look(&mut self, rows: &IndexMap<Name, bool>)
        requires { AreSeen rows.now.entries self.old.places.items self.old.upto }
        ensures { AreSeen rows.now.entries self.new.places.items self.new.upto }
    {
        for _ in self.upto..rows.len() {
            if self.take_next(rows).is_err() || self.places.len() > MOST {
                self.clear();
                return;
            }
        }
    }

    fn clear(&mut self)
        ensures places { self.new.places.items ≡ [] }
        ensures upto { self.new.upto ≡ 0 }
    {
        self.places.clear();
        self.upto = 0;
    }

    /// Looks at the next row, if there is one.
    fn take_next(&mut self, rows: &IndexMap<Name, bool>) -> Result<(), AllocError>
        requires { AreSeen rows.now.entries self.old.places.items self.old.upto }
        ensures { AreSeen rows.now.entries self.new.places.items self.new.upto }
    {
        let _count = rows.len();
        let row = self.upto;
        let Some((name, dead)) = rows.get_index(row) else {
            return Ok(());
        };
        if !*dead {
            if let Some(at) = self.place_for(rows, name.value()) {
                self.places.insert(at, row)?;
            }
        }
        self.upto = row + 1;
        Ok(())
    }

    /// Where a row of a value belongs among the places, if none is there.
    fn place_for(&self, rows: &IndexMap<Name, bool>, value: &Value) -> Option<usize>
        ensures some { IfSome result (λ at. at ≤ length self.now.places.items) }
        ensures none { IfNone result (0 < held (values_at rows.now.entries self.now.places.items) (val_of value.now)) }
    {
        let mut low = 0usize;
        let mut high = self.places.len();
        while low < high {
            let middle = low + (high - low) / 2;
            match order_at(rows, self.places[middle], value) {
                Ordering::Less => low = middle + 1,
                Ordering::Equal => return None,
                Ordering::Greater => high = middle,
            }
        }
        Some(low)
    }

    /// Whether all rows were looked at, and their values are few.
    pub(crate) fn has_all(&self, rows: &IndexMap<Name, bool>) -> bool {
        self.upto > 0 && self.upto >= rows.len()
    }

    /// The visible values, where all rows were looked at and those at the places live still.
    pub(crate) fn shown<'a>(
        &self,
        alloc: Global,
        rows: &'a IndexMap<Name, bool>,
    ) -> Result<Option<Vec<Shown<'a>>>, AllocError>
        requires { AreSeen rows.now.entries self.now.places.items self.now.upto }
        ensures { IfOk result (λ found. IfSome found (λ values. values.items ≡ of_values (live_values rows.now.entries))) }
    {
        if self.upto < rows.len() {
            return Ok(None);
        }
        standing_values(alloc, rows, self.places.as_slice())
    }
}

/// Whether a row at one of the places is dead.
fn has_dead(rows: &IndexMap<Name, bool>, places: &[usize]) -> bool {
    for place in places {
        if is_dead(rows, *place) {
            return true;
        }
    }
    false
}

/// How the value of the row at a place compares with another one.
fn order_at(rows: &IndexMap<Name, bool>, place: usize, value: &Value) -> Ordering
    ensures { result ≡ Equal → 0 < held (value_of (slice_get rows.now.entries place)) (val_of value.now) }
{
    match rows.get_index(place) {
        Some((name, _)) => compare_values(name.value(), value),
        None => Ordering::Less,
    }
}
