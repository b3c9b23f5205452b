//! What is told of a set: its rows in the order in which they came, and what they weigh.

ghost use Rattle.std.specs.Prelude.{◌≡◌, ◌<◌, ◌≤◌, ◌+◌, ◌^◌, ◌++◌, ◌∷◌, [], IfOk, OnOk, OnErr, IsOk, length, drop};
ghost use Rattle.lasp_logset.specs.Weights.{IsBounded, rows_weight};

use super::entry::Entry;
use super::weigh::entry_weight;
use lasp_log::{Items, Log};
use std::alloc::{AllocError, Global};
use std::marker::Model;

/// A log of rows that keeps a bound of what they weigh, seen as the log.
#[derive(Drop)]
pub(crate) struct Changes {
    log: Log<Entry>,
    weight: u64,
}

impl Model for Changes {
    ghost use Rattle.lasp_log.specs.Log.{Logged, coded_logged};
    ghost use Rattle.model_values.specs.Row.{Row, coded_row};
    ghost use Rattle.lasp_logset.specs.Weights.{IsBounded, rows_weight};

    ghost Value = { Logged Row };

    ghost coded = { coded_logged coded_row };

    ghost view = { λ a. a.log };

    ghost invariant = { λ a. IsBounded (rows_weight a.log.items) a.weight };
}

impl Changes {
    /// No changes. They take no memory yet.
    pub(crate) fn new(alloc: Global) -> Changes
        ensures { result.items ≡ [] }
    {
        Changes {
            log: Log::new(alloc),
            weight: 0,
        }
    }

    /// These rows, which aren't copied. It fails only where there are more than 2^32.
    pub(crate) fn of(rows: Vec<Entry>) -> Result<Changes, AllocError>
        ensures { IfOk result (λ log. log.items ≡ rows.items) }
    {
        let weight = weight_of(rows.as_slice());
        let log = Log::of(rows)?;
        Ok(Changes { log, weight })
    }

    /// The number of changes.
    pub(crate) fn len(&self) -> usize
        ensures exact { result ≡ length self.now.items }
        ensures small { result ≤ 2 ^ 32 }
    {
        self.log.len()
    }

    /// A number that is at least what the changes weigh.
    pub(crate) fn weight(&self) -> u64
        ensures { IsBounded (rows_weight self.now.items) result }
    {
        self.weight
    }

    /// The allocator that the log was made with.
    pub(crate) fn allocator(&self) -> Global {
        self.log.allocator()
    }

    /// Takes memory for so many changes more.
    pub(crate) fn reserve(&mut self, additional: usize) -> Result<(), AllocError>
        ensures same { self.new.items ≡ self.old.items }
        ensures ok { OnOk result (additional ≤ self.new.room) }
    {
        self.log.reserve(additional)
    }

    /// Appends a row. It succeeds where there is room.
    pub(crate) fn push(&mut self, entry: Entry) -> Result<(), AllocError>
        ensures ok { OnOk result (self.new.items ≡ self.old.items ++ entry ∷ []) }
        ensures err { OnErr result (self.new.items ≡ self.old.items) }
        ensures succeeds { 0 < self.old.room → IsOk result }
        ensures room { self.old.room ≤ self.new.room + 1 }
    {
        let weight = entry_weight(&entry);
        self.log.push(entry)?;
        self.weight = self.weight.saturating_add(weight);
        Ok(())
    }

    /// `Log::seal`.
    pub(crate) fn seal(&mut self)
        ensures { self.new.items ≡ self.old.items }
    {
        self.log.seal()
    }

    /// `Log::close`.
    pub(crate) fn close(&mut self)
        ensures { self.new.items ≡ self.old.items }
    {
        self.log.close()
    }

    /// An equal log, at the cost of `Log::share`.
    pub(crate) fn share(&self) -> Result<Changes, AllocError>
        ensures { IfOk result (λ log. log.items ≡ self.now.items) }
    {
        Ok(Changes {
            log: self.log.share()?,
            weight: self.weight,
        })
    }

    /// A pass over all changes.
    pub(crate) fn iter(&self) -> Items<'_, Entry>
        ensures { result ≡ self.now.items }
    {
        self.log.iter()
    }

    /// A pass over the changes from a place on, at the cost of `Log::since`.
    pub(crate) fn since(&self, place: usize) -> Items<'_, Entry>
        requires { place ≤ length self.now.items }
        ensures { result ≡ drop place self.now.items }
    {
        self.log.since(place)
    }
}

/// A number that is at least what the rows weigh.
fn weight_of(rows: &[Entry]) -> u64
    ensures { IsBounded (rows_weight rows.now) result }
{
    let mut weight = 0u64;
    for row in rows {
        weight = weight.saturating_add(entry_weight(row));
    }
    weight
}
