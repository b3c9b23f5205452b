//! Sets as programs hand them on: a log with a table that several may share, or a log alone.

ghost use Rattle.std.specs.Prelude.{◌≡◌, ◌≤◌, ◌^◌, [], IfOk, length};
ghost use Rattle.std.specs.Arc.{arc_value};
ghost use Rattle.model_sets.specs.Rows.{IsAscending, of_rows};
ghost use Rattle.model_sets.specs.Rises.{AreRises};
ghost use Rattle.model_sets.specs.Reads.{HaveSmallInts};

use super::changes::Changes;
use super::entry::Entry;
use super::grown::{Grown, SHORT};
use super::past::Past;
use super::set::LogSet;
use std::alloc::{AllocError, Global};
use std::marker::Model;
use std::sync::Arc;

/// The state of an observed-remove set, seen as its list of rows, ascending by value and then by token.
#[derive(Drop)]
pub struct OrSet {
    pub(crate) kept: Kept,
}

/// What is kept of a set.
#[derive(Drop)]
pub(crate) enum Kept {
    /// The log with its table, for a set that is written or asked by key.
    Whole(Arc<LogSet>),
    /// The log alone, for a state that is kept while the set goes on growing; or a log that grew from a table that others share.
    Past(Grown),
}

impl Model for OrSet {
    ghost use Rattle.std.specs.Prelude.{List};
    ghost use Rattle.model_values.specs.Row.{Row, coded_rows};
    ghost use Rattle.model_sets.specs.Rows.{of_rows};
    ghost use Rattle.lasp_logset.specs.Whole.{log_in};

    ghost Value = { List Row };

    ghost coded = { coded_rows };

    ghost view = { λ a. of_rows (log_in a.kept) };
}

impl OrSet {
    /// The least set, which has no rows; it takes no memory yet.
    pub fn new(alloc: Global) -> OrSet
        ensures { result ≡ [] }
    {
        OrSet::of_past(Past::new(alloc))
    }

    /// The least set, by the same allocator. It takes no memory.
    pub fn empty(&self) -> OrSet
        ensures { result ≡ [] }
    {
        OrSet::new(self.allocator())
    }

    /// The set of a log alone.
    pub(crate) fn of_past(past: Past) -> OrSet
        ensures { result ≡ of_rows past }
    {
        OrSet {
            kept: Kept::Past(Grown::of(past)),
        }
    }

    /// The set of a log with its table.
    pub(crate) fn of_whole(alloc: Global, set: LogSet) -> Result<OrSet, AllocError>
        ensures { IfOk result (λ s. s ≡ of_rows set) }
    {
        Ok(OrSet {
            kept: Kept::Whole(Arc::new(alloc, set)?),
        })
    }

    /// The set of rows that ascend, which are kept as they are. It takes no memory for them.
    pub fn of_ascending(rows: Vec<Entry>) -> Result<OrSet, AllocError>
        requires { IsAscending rows.items }
        ensures { IfOk result (λ s. s ≡ rows.items) }
    {
        recall_all(rows.as_slice());
        let mut log = Changes::of(rows)?;
        log.close();
        Ok(OrSet::of_past(Past::of_apart(log)))
    }

    /// The set of rows in any order: a row for each key, dead where one of them is. It costs an insertion for each, but where they are few.
    pub fn of_rows(alloc: Global, rows: &[Entry]) -> Result<OrSet, AllocError>
        ensures { IfOk result (λ s. s ≡ of_rows rows.now) }
    {
        if (rows.len() as u64) < SHORT {
            return OrSet::of_few(alloc, rows);
        }
        OrSet::of_whole(alloc, LogSet::of_rows(alloc, rows)?)
    }

    /// The same, by a pass for each row.
    fn of_few(alloc: Global, rows: &[Entry]) -> Result<OrSet, AllocError>
        ensures { IfOk result (λ s. s ≡ of_rows rows.now) }
    {
        let mut set = OrSet::new(alloc);
        for row in rows {
            set.add(row.try_clone()?)?;
        }
        Ok(set)
    }

    /// The allocator that the set was made with.
    pub(crate) fn allocator(&self) -> Global {
        self.log().allocator()
    }

    /// What tells of the set without a table.
    pub(crate) fn log(&self) -> &Changes
        ensures rows { of_rows result.now.items ≡ self.now }
        ensures rises { AreRises [] result.now.items }
        ensures ints { HaveSmallInts result.now.items }
        ensures small { length result.now.items ≤ 2 ^ 32 }
    {
        match &self.kept {
            Kept::Whole(set) => set.log(),
            Kept::Past(grown) => grown.past().log(),
        }
    }

    /// The log with its table: a share of it, or where the log is alone, a table made of it, which costs an insertion for each change.
    pub fn table(&self) -> Result<Arc<LogSet>, AllocError>
        ensures { IfOk result (λ set. of_rows (arc_value set) ≡ self.now) }
    {
        match &self.kept {
            Kept::Whole(set) => Arc::try_clone(set),
            Kept::Past(grown) => Ok(Arc::new(grown.allocator(), grown.past().whole()?)?),
        }
    }

    /// An equal set, which shares the log and, if there is one, the table: a set that is written while its table is shared goes on behind that, until `gather`.
    pub fn try_clone(&self) -> Result<OrSet, AllocError>
        ensures { IfOk result (λ s. s ≡ self.now) }
    {
        match &self.kept {
            Kept::Whole(set) => Ok(OrSet {
                kept: Kept::Whole(Arc::try_clone(set)?),
            }),
            Kept::Past(grown) => Ok(OrSet {
                kept: Kept::Past(grown.try_clone()?),
            }),
        }
    }

    /// An equal set without the table, for what is kept while this one goes on growing. It costs what a share of the log does; reads that need a table make one each time.
    pub fn past(&self) -> Result<OrSet, AllocError>
        ensures { IfOk result (λ s. s ≡ self.now) }
    {
        match &self.kept {
            Kept::Whole(set) => Ok(OrSet::of_past(set.past()?)),
            Kept::Past(grown) => Ok(OrSet::of_past(grown.past().try_clone()?)),
        }
    }

    /// An equal set with a table of its own whose values are indexed, for what is asked for many of them. It costs two insertions for each change.
    pub fn indexed(&self) -> Result<OrSet, AllocError>
        ensures { IfOk result (λ s. s ≡ self.now) }
    {
        let log = self.log();
        let mut set = LogSet::of_log(log)?;
        set.index_values()?;
        OrSet::of_whole(log.allocator(), set)
    }

    /// The number of rows, dead ones counted.
    pub fn rows(&self) -> u64
        ensures exact { result ≡ length self.now }
        ensures small { result ≤ 2 ^ 32 }
    {
        match &self.kept {
            Kept::Whole(set) => set.rows(),
            Kept::Past(grown) => grown.past().rows(),
        }
    }

    /// Recalls, at no cost, that the rows ascend.
    #[tactic(auto, using(crate::proofs::WholeLaws::ascending_rows))]
    pub fn ascends(&self)
        ensures { IsAscending self.now }
    {
        let _kept = &self.kept;
    }

    /// Recalls, at no cost, that each number in its values has at most 64 bits.
    #[tactic(auto, using(crate::proofs::WholeLaws::small_rows))]
    pub fn recall_ints(&self)
        ensures { HaveSmallInts self.now }
    {
        let _log = self.log();
    }
}

/// Recalls, at no cost, that each number in the values of rows has at most 64 bits.
fn recall_all(rows: &[Entry])
    ensures { HaveSmallInts rows.now }
{
    for row in rows {
        row.recall_ints();
    }
}
