//! A pass over the rows of one value, from the newest back.

ghost use Rattle.std.specs.Prelude.{◌≡◌, ◌∷◌, [], IfSome, IfNone, filter};
ghost use Rattle.model_sets.specs.Rows.{of_rows, is_of, IsAtMost};
ghost use Rattle.model_sets.specs.Rises.{AreApart};
ghost use Rattle.lasp_value.specs.Value.{val_of};

use super::name::Name;
use super::places::Places;
use super::rows::TableRow;
use super::set::LogSet;
use indexmap::IndexMap;
use lasp_value::Value;
use std::marker::Model;

/// The rows that are left of a pass, seen as their list.
#[derive(Drop)]
pub struct Near<'a> {
    rows: &'a IndexMap<Name, bool>,
    places: &'a Places,
    behind: usize,
    value: &'a Value,
}

impl<'a> Model for Near<'a> {
    ghost use Rattle.std.specs.Prelude.{List};
    ghost use Rattle.model_values.specs.Row.{Row, coded_rows};
    ghost use Rattle.lasp_value.specs.Value.{val_of};
    ghost use Rattle.lasp_logset.specs.Places.{near, IsNear};

    ghost Value = { List Row };

    ghost coded = { coded_rows };

    ghost view = { λ a. near (val_of a.value.now) a.rows.now.entries a.behind };

    ghost invariant = { λ a. IsNear a.rows.now.entries a.places.now.newest.entries a.places.now.older.items (val_of a.value.now) a.behind };
}

impl<'a> Near<'a> {
    /// The next row. It costs a step for each row that came since the rows were indexed, and then for each of the value's hash.
    pub(crate) fn next(&mut self) -> Option<TableRow<'a>>
        ensures some { IfSome result (λ r. self.old ≡ r ∷ self.new) }
        ensures none { IfNone result (self.old ≡ []) }
        ensures ended { IfNone result (self.new ≡ []) }
    {
        if self.behind == 0 {
            return None;
        }
        let row = self.behind - 1;
        let before = self.places.any_before(self.rows, row, self.value);
        self.behind = before;
        let Some((name, dead)) = self.rows.get_index(row) else {
            unreachable!()
        };
        Some(TableRow::of(name, *dead))
    }
}

impl LogSet {
    /// The rows of a value: those that came since the rows were indexed are found by a pass, the others by their chain.
    pub(crate) fn near<'a>(&'a self, value: &'a Value) -> Near<'a>
        ensures rows { filter (is_of (val_of value.now)) (of_rows result) ≡ filter (is_of (val_of value.now)) (of_rows self.now) }
        ensures apart { AreApart result }
        ensures within { IsAtMost result self.now }
    {
        let (rows, places) = self.first_places();
        let behind = places.newest_before(rows, rows.len(), value);
        Near {
            rows,
            places,
            behind,
            value,
        }
    }
}
