//! Which rows a value has, dead ones among them: chains of row numbers, each from the newest row back, by the hash of the value.

ghost use Rattle.std.specs.Prelude.{◌≡◌, ℕ, suc, ◌<◌, ◌≤◌, [], IsTrue, length};
ghost use Rattle.lasp_value.specs.Value.{val_of};
ghost use Rattle.lasp_logset.specs.Chains.{newest_of, value_hash, IsBehind};
ghost use Rattle.lasp_logset.specs.Places.{AreFound, IsRowOf};

use super::chains::hash_of;
use super::live::is_of;
use super::name::Name;
use indexmap::IndexMap;
use lasp_value::Value;
use std::alloc::{AllocError, Global};

#[derive(Drop)]
pub(crate) struct Places {
    /// By the hash of a value one more than the number of its newest row.
    pub(crate) newest: IndexMap<u64, usize>,
    /// For each row one more than the number of the row before it in its chain, or 0.
    pub(crate) older: Vec<usize>,
}

impl Places {
    /// No chains yet. They take no memory.
    pub(crate) fn new(alloc: Global) -> Places
        ensures newest { result.newest.entries ≡ [] }
        ensures older { result.older.items ≡ [] }
    {
        Places {
            newest: IndexMap::new(alloc),
            older: Vec::new(alloc),
        }
    }

    /// Takes the rows in that came since. It costs a look-up for each. After want of memory it has taken some.
    pub(crate) fn follow(&mut self, rows: &IndexMap<Name, bool>) -> Result<(), AllocError>
        requires { AreFound rows.now.entries self.old.newest.entries self.old.older.items }
        ensures { AreFound rows.now.entries self.new.newest.entries self.new.older.items }
    {
        for _ in self.older.len()..rows.len() {
            self.link_next(rows)?;
        }
        Ok(())
    }

    /// Takes the next row in, if there is one.
    fn link_next(&mut self, rows: &IndexMap<Name, bool>) -> Result<(), AllocError>
        requires { AreFound rows.now.entries self.old.newest.entries self.old.older.items }
        ensures { AreFound rows.now.entries self.new.newest.entries self.new.older.items }
    {
        let place = self.older.len();
        let Some((name, _)) = rows.get_index(place) else {
            return Ok(());
        };
        let hash = hash_of(name.value());
        let before = self.begin(hash);
        self.older.reserve(1)?;
        self.newest.insert(hash, place + 1)?;
        self.older.push_reserved(before);
        Ok(())
    }

    /// Where the chain of a hash begins.
    fn begin(&self, hash: u64) -> usize
        ensures { result ≡ newest_of self.now.newest.entries hash }
    {
        match self.newest.get(&hash) {
            Some(place) => *place,
            None => 0,
        }
    }

    /// One more than the number of the newest row of a value to which they lead, or 0.
    pub(crate) fn newest_row(&self, rows: &IndexMap<Name, bool>, value: &Value) -> usize
        requires { AreFound rows.now.entries self.now.newest.entries self.now.older.items }
        ensures within { result ≤ length self.now.older.items }
        ensures found { (k : ℕ) → result ≡ suc k → IsRowOf rows.now.entries (val_of value.now) k }
        ensures passed { (i : ℕ) → IsRowOf rows.now.entries (val_of value.now) i → i < length self.now.older.items → i < result }
    {
        self.row_from(rows, self.begin(hash_of(value)), value)
    }

    /// One more than the number of the newest row of a value before a place behind those to which they lead, or 0. It costs a step for each row between.
    pub(crate) fn newest_before(
        &self,
        rows: &IndexMap<Name, bool>,
        place: usize,
        value: &Value,
    ) -> usize
        requires found { AreFound rows.now.entries self.now.newest.entries self.now.older.items }
        requires since { length self.now.older.items ≤ place }
        ensures found { (k : ℕ) → result ≡ suc k → IsRowOf rows.now.entries (val_of value.now) k }
        ensures passed { (i : ℕ) → IsRowOf rows.now.entries (val_of value.now) i → i < place → i < result }
        ensures falls { result ≤ place }
    {
        let first = self.older.len();
        let behind = scan_back(rows, first, place, value);
        if behind > first {
            return behind;
        }
        self.newest_row(rows, value)
    }

    /// From any row of a value one more than the number of the one before it, or 0.
    pub(crate) fn any_before(&self, rows: &IndexMap<Name, bool>, row: usize, value: &Value) -> usize
        requires found { AreFound rows.now.entries self.now.newest.entries self.now.older.items }
        requires row { IsRowOf rows.now.entries (val_of value.now) row }
        ensures found { (k : ℕ) → result ≡ suc k → IsRowOf rows.now.entries (val_of value.now) k }
        ensures passed { (i : ℕ) → IsRowOf rows.now.entries (val_of value.now) i → i < row → i < result }
        ensures falls { result ≤ row }
    {
        if row < self.older.len() {
            return self.row_before(rows, row, value);
        }
        self.newest_before(rows, row, value)
    }

    /// From a row of a value to which they lead one more than the number of the one before it, or 0.
    pub(crate) fn row_before(&self, rows: &IndexMap<Name, bool>, row: usize, value: &Value) -> usize
        requires found { AreFound rows.now.entries self.now.newest.entries self.now.older.items }
        requires within { row < length self.now.older.items }
        requires row { IsRowOf rows.now.entries (val_of value.now) row }
        ensures found { (k : ℕ) → result ≡ suc k → IsRowOf rows.now.entries (val_of value.now) k }
        ensures passed { (i : ℕ) → IsRowOf rows.now.entries (val_of value.now) i → i < row → i < result }
        ensures falls { result ≤ row }
    {
        self.row_from(rows, self.older[row], value)
    }

    fn row_from(&self, rows: &IndexMap<Name, bool>, begin: usize, value: &Value) -> usize
        requires found { AreFound rows.now.entries self.now.newest.entries self.now.older.items }
        requires begin { IsBehind rows.now.entries (value_hash (val_of value.now)) (length self.now.older.items) begin }
        ensures found { (k : ℕ) → result ≡ suc k → IsRowOf rows.now.entries (val_of value.now) k }
        ensures passed { (i : ℕ) → IsRowOf rows.now.entries (val_of value.now) i → i < begin → i < result }
        ensures falls { result ≤ begin }
    {
        let mut behind = begin;
        while behind > 0 && !is_row_at(rows, behind - 1, value) {
            behind = self.older[behind - 1];
        }
        behind
    }
}

/// One more than the number of the newest row of a value before a place and not before the first one, or the first one.
fn scan_back(rows: &IndexMap<Name, bool>, first: usize, place: usize, value: &Value) -> usize
    requires { first ≤ place }
    ensures found { (k : ℕ) → result ≡ suc k → first ≤ k → IsRowOf rows.now.entries (val_of value.now) k }
    ensures passed { (i : ℕ) → IsRowOf rows.now.entries (val_of value.now) i → first ≤ i → i < place → i < result }
    ensures falls { result ≤ place }
{
    let mut behind = place;
    while behind > first && !is_row_at(rows, behind - 1, value) {
        behind -= 1;
    }
    behind
}

/// Whether the row at a place is of a value.
fn is_row_at(rows: &IndexMap<Name, bool>, place: usize, value: &Value) -> bool
    ensures of { IsTrue result → IsRowOf rows.now.entries (val_of value.now) place }
    ensures other { IsRowOf rows.now.entries (val_of value.now) place → IsTrue result }
{
    match rows.get_index(place) {
        Some((name, _)) => is_of(name, value),
        None => false,
    }
}
