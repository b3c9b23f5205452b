//! A state of the past: a share of a set's log, without the table.

ghost use Rattle.std.specs.Prelude.{◌≡◌, ◌≤◌, ◌^◌, ◌<◌, ◌+◌, ◌↔◌, ◌++◌, ◌∷◌, [], IfOk, OnOk, OnErr, IsTrue, if◌then◌else◌, length, drop, nat_lt};
ghost use Rattle.model_sets.specs.Rows.{level, mark, of_rows, IsAtMost};
ghost use Rattle.model_sets.specs.Rises.{AreRises, AreApart};
ghost use Rattle.model_sets.specs.Reads.{HaveSmallInts};
ghost use Rattle.lasp_logset.specs.Kept.{IsPast};
ghost use Rattle.lasp_logset.specs.Weights.{IsBounded, rows_weight};

use super::changes::Changes;
use super::entry::Entry;
use super::set::LogSet;
use lasp_log::Items;
use std::alloc::{AllocError, Global};
use std::marker::Model;

/// A state that a set had, seen as the log by then.
#[derive(Drop)]
pub struct Past {
    log: Changes,
    rows: u64,
}

impl Model for Past {
    ghost use Rattle.std.specs.Prelude.{List};
    ghost use Rattle.model_values.specs.Row.{Row, coded_rows};
    ghost use Rattle.lasp_logset.specs.Kept.{IsPast};

    ghost Value = { List Row };

    ghost coded = { coded_rows };

    ghost view = { λ a. a.log.items };

    ghost invariant = { λ a. IsPast a.log.items a.rows };
}

impl Past {
    /// The state without rows; it takes no memory yet.
    pub(crate) fn new(alloc: Global) -> Past
        ensures { result ≡ [] }
    {
        Past {
            log: Changes::new(alloc),
            rows: 0,
        }
    }

    /// The state of one row.
    pub(crate) fn one(alloc: Global, entry: Entry) -> Result<Past, AllocError>
        ensures { IfOk result (λ p. p ≡ entry ∷ []) }
    {
        entry.recall_ints();
        let mut log = Changes::new(alloc);
        log.push(entry)?;
        Ok(Past { log, rows: 1 })
    }

    /// The state of rows of which no two have one key.
    pub(crate) fn of_apart(log: Changes) -> Past
        requires apart { AreApart log.items }
        requires ints { HaveSmallInts log.items }
        ensures { result ≡ log.items }
    {
        let rows = log.len() as u64;
        Past { log, rows }
    }

    pub(crate) fn of(log: Changes, rows: u64) -> Past
        requires { IsPast log.items rows }
        ensures { result ≡ log.items }
    {
        Past { log, rows }
    }

    /// The same state. It costs what a share of the log does.
    pub fn try_clone(&self) -> Result<Past, AllocError>
        ensures { IfOk result (λ p. p ≡ self.now) }
    {
        Ok(Past {
            log: self.log.share()?,
            rows: self.rows,
        })
    }

    /// The allocator that the set was made with.
    pub(crate) fn allocator(&self) -> Global {
        self.log.allocator()
    }

    /// A set of the same rows. It costs an insertion for each change.
    pub fn whole(&self) -> Result<LogSet, AllocError>
        ensures { IfOk result (λ s. s ≡ self.now) }
    {
        LogSet::of_log(&self.log)
    }

    /// The number of rows, dead ones counted.
    pub fn rows(&self) -> u64
        ensures exact { result ≡ length (of_rows self.now) }
        ensures small { result ≤ 2 ^ 32 }
    {
        self.rows
    }

    /// The number of changes by then.
    pub fn version(&self) -> u64
        ensures exact { result ≡ length self.now }
        ensures small { result ≤ 2 ^ 32 }
    {
        self.log.len() as u64
    }

    /// A number that is at least what the changes weigh, in constant time.
    pub fn weight(&self) -> u64
        ensures { IsBounded (rows_weight self.now) result }
    {
        self.log.weight()
    }

    /// Recalls, at no cost, that each row of the log tells more than those before it.
    pub fn rises(&self)
        ensures { AreRises [] self.now }
    {
        let _log = &self.log;
    }

    /// Recalls, at no cost, that each number in its values has at most 64 bits.
    pub fn recall_ints(&self)
        ensures { HaveSmallInts self.now }
    {
        let _log = &self.log;
    }

    pub(crate) fn log(&self) -> &Changes
        ensures items { result.now.items ≡ self.now }
        ensures rises { AreRises [] self.now }
        ensures ints { HaveSmallInts self.now }
        ensures small { length self.now ≤ 2 ^ 32 }
    {
        let _len = self.log.len();
        &self.log
    }

    /// A pass over the changes by then, oldest first. A row that died after it had come stands there twice.
    pub fn iter(&self) -> Items<'_, Entry>
        ensures { result ≡ self.now }
    {
        self.log.iter()
    }

    /// A pass over the changes since a place.
    pub(crate) fn since(&self, place: usize) -> Items<'_, Entry>
        requires { place ≤ length self.now }
        ensures { result ≡ drop place self.now }
    {
        self.log.since(place)
    }

    /// Puts a row behind the log that tells more than it; `is_fresh` tells whether no row of its key was there.
    pub(crate) fn push(&mut self, entry: Entry, is_fresh: bool) -> Result<(), AllocError>
        requires raises { mark self.old entry.0.0 entry.0.1 < level entry.1 }
        requires fresh { is_fresh ≡ nat_lt (mark self.old entry.0.0 entry.0.1) 1 }
        ensures ok { OnOk result (self.new ≡ self.old ++ entry ∷ []) }
        ensures err { OnErr result (self.new ≡ self.old) }
    {
        entry.recall_ints();
        self.log.push(entry)?;
        let _len = self.log.len();
        let rows = counted(self.rows, is_fresh);
        self.rows = rows;
        Ok(())
    }

    /// Seals what came, where it is worth a chunk.
    pub(crate) fn seal(&mut self)
        ensures { self.new ≡ self.old }
    {
        self.log.seal()
    }

    /// The order: each row of this state is in the set, and is dead there if it is dead here.
    pub fn le(&self, set: &LogSet) -> bool
        ensures { IsTrue result ↔ IsAtMost self.now set.now }
    {
        set.covers(&self.log)
    }
}

/// One more where a row is fresh.
fn counted(rows: u64, is_fresh: bool) -> u64
    requires { rows ≤ 2 ^ 32 }
    ensures { result ≡ (if is_fresh then rows + 1 else rows) }
{
    if is_fresh { rows + 1 } else { rows }
}
