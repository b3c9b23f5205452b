//! Rows of a set as a list, no two of one key, in any order: what came or went, to be looked at row by row.

ghost use Rattle.std.specs.Prelude.{◌≡◌, ◌^◌, ◌<◌, ◌==◌, [], not, IfOk, length};
ghost use Rattle.std.specs.List.{list_all};
ghost use Rattle.model_sets.specs.Rows.{of_rows};
ghost use Rattle.model_sets.specs.Rises.{AreRises, AreApart};

use super::entry::Entry;
use super::orset::OrSet;
use std::alloc::{AllocError, Global};
use std::marker::Model;

/// Rows no two of which have one key, seen as the set of them. They are shared with the sets that they come from.
#[derive(Drop)]
pub struct RowList {
    rows: Vec<Entry>,
}

impl Model for RowList {
    ghost use Rattle.std.specs.Prelude.{List};
    ghost use Rattle.model_values.specs.Row.{Row, coded_rows};
    ghost use Rattle.model_sets.specs.Rows.{of_rows};
    ghost use Rattle.model_sets.specs.Rises.{AreApart};

    ghost Value = { List Row };

    ghost coded = { coded_rows };

    ghost view = { λ a. of_rows a.rows.items };

    ghost invariant = { λ a. AreApart a.rows.items };
}

impl RowList {
    /// No rows. They take no memory.
    pub fn new(alloc: Global) -> RowList
        ensures { result ≡ [] }
    {
        RowList {
            rows: Vec::new(alloc),
        }
    }

    /// These rows, which aren't copied.
    pub(crate) fn of(rows: Vec<Entry>) -> RowList
        requires { AreApart rows.items }
        ensures { result ≡ of_rows rows.items }
    {
        RowList { rows }
    }

    /// What rows of a log say that each tell more than those before them. Where all are live, or all dead, it costs a share of each; else an insertion for each.
    pub fn of_log(alloc: Global, rows: &[Entry]) -> Result<RowList, AllocError>
        requires { AreRises [] rows.now }
        ensures { IfOk result (λ list. list ≡ of_rows rows.now) }
    {
        if are_live(rows) || are_dead(rows) {
            return Ok(RowList::of(shares(alloc, rows)?));
        }
        let set = OrSet::of_rows(alloc, rows)?;
        RowList::of_set(alloc, &set)
    }

    /// The rows of a set. It costs a share of each, and where the set has a log alone some of whose rows died after they had come, a look-up for each change.
    pub fn of_set(alloc: Global, set: &OrSet) -> Result<RowList, AllocError>
        ensures { IfOk result (λ list. list ≡ set.now) }
    {
        let mut list = Vec::with_capacity(alloc, set.rows() as usize)?;
        let mut rows = set.entries()?;
        while let Some(row) = rows.next() {
            list.push(row.entry()?)?;
        }
        Ok(RowList::of(list))
    }

    /// The number of rows, dead ones counted.
    pub fn len(&self) -> u64
        ensures exact { result ≡ length self.now }
        ensures small { result < 2 ^ 63 }
    {
        self.rows.len() as u64
    }

    /// Whether there are no rows.
    pub fn is_empty(&self) -> bool
        ensures { result ≡ (length self.now == 0) }
    {
        self.as_slice().is_empty()
    }

    /// The rows, in any order.
    pub fn as_slice(&self) -> &[Entry]
        ensures rows { of_rows result.now ≡ self.now }
        ensures apart { AreApart result.now }
        ensures many { length result.now ≡ length self.now }
    {
        self.rows.as_slice()
    }

    /// The set of the rows. It costs an insertion for each, but where they are few.
    pub fn set(&self) -> Result<OrSet, AllocError>
        ensures { IfOk result (λ set. set ≡ self.now) }
    {
        OrSet::of_rows(*self.rows.allocator(), self.rows.as_slice())
    }

    /// The rows, in any order, which aren't copied.
    pub fn into_rows(self) -> Vec<Entry>
        ensures rows { of_rows result.items ≡ self }
        ensures apart { AreApart result.items }
    {
        self.rows
    }
}

/// Whether all rows are dead.
fn are_dead(rows: &[Entry]) -> bool
    ensures { result ≡ list_all (λ r. r.1) rows.now }
{
    rows.iter().all(|row| row.is_dead())
}

/// Whether all rows are live.
fn are_live(rows: &[Entry]) -> bool
    ensures { result ≡ list_all (λ r. not r.1) rows.now }
{
    rows.iter().all(|row| !row.is_dead())
}

/// The same rows.
fn shares(alloc: Global, rows: &[Entry]) -> Result<Vec<Entry>, AllocError>
    ensures { IfOk result (λ list. list.items ≡ rows.now) }
{
    let mut list = Vec::with_capacity(alloc, rows.len())?;
    for row in rows {
        list.push(row.try_clone()?)?;
    }
    Ok(list)
}
