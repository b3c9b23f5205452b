//! What a set shows, and its rows in either order.

ghost use Rattle.std.specs.Prelude.{◌≡◌, ◌↔◌, IfOk, IsTrue, length};
ghost use Rattle.model_sets.specs.Rows.{of_rows, join};
ghost use Rattle.model_sets.specs.Rises.{AreApart};
ghost use Rattle.model_sets.specs.Reads.{is_row_of, HasRowOf};
ghost use Rattle.model_sets.specs.Values.{IsHeld, visible};
ghost use Rattle.lasp_value.specs.Value.{val_of};

use super::any_row::has_row_of;
use super::buried::has_live;
use super::rows::{Rows, TableRow};
use super::set::LogSet;
use super::shown::copies;
use super::table::count_new;
use lasp_value::{Value, Values};
use std::alloc::AllocError;

impl LogSet {
    /// A pass over the rows in the order in which their keys came.
    pub fn iter(&self) -> Rows<'_>
        ensures rows { of_rows result ≡ of_rows self.now }
        ensures apart { AreApart result }
    {
        Rows::of(self.parts().0.iter())
    }

    /// The rows, ascending by value and then by token. It takes memory for a pointer to each, and sorts these.
    pub fn sorted(&self) -> Result<Vec<TableRow<'_>>, AllocError>
        ensures { IfOk result (λ rows. rows.items ≡ of_rows self.now) }
    {
        let mut sorted = Vec::with_capacity(self.allocator(), self.parts().0.len())?;
        let mut rows = self.iter();
        while let Some(row) = rows.next() {
            sorted.push(row)?;
        }
        sorted.sort()?;
        Ok(sorted)
    }

    /// Whether the value has a live row. It costs two look-ups, and a pass over the rows that came since `index_values`.
    pub fn has(&self, value: &Value) -> bool
        ensures { IsTrue result ↔ IsHeld (visible (of_rows self.now)) (val_of value.now) }
    {
        let (rows, chains) = self.parts();
        has_live(rows, chains, value)
    }

    /// Whether the value has a row, and a dead one where `dead` is true. It costs two look-ups, the value's rows, and a pass over the rows that came since `index_rows`.
    pub fn has_row(&self, value: &Value, dead: bool) -> bool
        ensures { IsTrue result ↔ HasRowOf self.now (val_of value.now) dead }
    {
        let (rows, places) = self.first_places();
        has_row_of(rows, places, value, dead)
    }

    /// The values with a live row, ascending, each once. It costs a comparison for each live row, a sort where they don't ascend in the order in which they came, and a copy of each.
    pub fn visible(&self) -> Result<Values, AllocError>
        ensures { IfOk result (λ values. values ≡ visible (of_rows self.now)) }
    {
        let shown = self.shown()?;
        copies(self.allocator(), shown.as_slice())
    }

    /// The number of rows that the join with another set has, dead ones counted. Each row of the other set costs a look-up. It takes no memory.
    pub fn joined_rows(&self, other: &LogSet) -> u64
        ensures { result ≡ length (join (of_rows self.now) (of_rows other.now)) }
    {
        self.rows() + count_new(self.parts().0, other.parts().0)
    }
}

/// Whether the row is of the value, and dead where `dead` is true.
pub(crate) fn is_row_of(row: &TableRow, value: &Value, dead: bool) -> bool
    ensures { result ≡ is_row_of (val_of value.now) dead row.now }
{
    row.is_of(value) && (row.is_dead() || !dead)
}
