//! How rows in any order come into a set one by one, and which of them told more.

ghost use Rattle.std.specs.Prelude.{◌≡◌, IfOk, OnOk, OnErr};
ghost use Rattle.model_sets.specs.Rows.{of_rows, join};
ghost use Rattle.model_sets.specs.Equations.{changed};

use super::deltas::changed;
use super::entry::Entry;
use super::orset::{Kept, OrSet};
use super::row_list::RowList;
use std::alloc::AllocError;
use std::sync::Arc;

impl OrSet {
    /// Joins rows in, of which several may have one key, and gives those that told more than the set did. Where the set has a table that no one else has, each row costs a look-up, and each that told more an insertion. Else a set is made of the rows, which is looked up row by row and joined in.
    pub fn take_in(&mut self, rows: Vec<Entry>) -> Result<RowList, AllocError>
        ensures joined { OnOk result (self.new ≡ join self.old (of_rows rows.items)) }
        ensures told { IfOk result (λ told. told ≡ changed self.old (of_rows rows.items)) }
        ensures err { OnErr result (self.new ≡ self.old) }
    {
        if let Kept::Whole(set) = &mut self.kept {
            if let Some(own) = Arc::get_mut(set) {
                let told = own.take_rows(rows)?;
                return Ok(RowList::of(told));
            }
        }
        self.take_set(rows.as_slice())
    }

    /// Joins the set of rows in, and gives those that told more.
    fn take_set(&mut self, rows: &[Entry]) -> Result<RowList, AllocError>
        ensures joined { OnOk result (self.new ≡ join self.old (of_rows rows.now)) }
        ensures told { IfOk result (λ told. told ≡ changed self.old (of_rows rows.now)) }
        ensures err { OnErr result (self.new ≡ self.old) }
    {
        let alloc = self.allocator();
        let coming = OrSet::of_rows(alloc, rows)?;
        let news = changed(alloc, self, &coming)?;
        let told = RowList::of_set(alloc, &news)?;
        self.join_in(&coming)?;
        Ok(told)
    }
}
