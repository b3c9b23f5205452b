//! Which rows a value has: chains of row numbers, each from the newest row back, by the hash of the value.
//! They are brought up to date where that is asked for, and rows that are dead by then are left out of them.

ghost use Rattle.std.specs.Prelude.{◌≡◌, ℕ, suc, true, ◌<◌, ◌≤◌, [], length};
ghost use Rattle.lasp_value.specs.Value.{val_of};
ghost use Rattle.lasp_logset.specs.Live.{IsLiveRow};
ghost use Rattle.lasp_logset.specs.Chains.{value_hash, newest_of, IsLiveAt, IsBehind, AreChained};

use super::hash::hash_value;
use super::live::is_live_row;
use super::name::Name;
use indexmap::IndexMap;
use lasp_value::Value;
use std::alloc::{AllocError, Global};
use std::hash::{FoldHasher, Hasher};

#[derive(Drop)]
pub(crate) struct Chains {
    /// By the hash of a value one more than the number of its newest row.
    pub(crate) newest: IndexMap<u64, usize>,
    /// For each row one more than the number of the row before it in its chain, or 0.
    pub(crate) older: Vec<usize>,
}

impl Chains {
    /// No chains yet. They take no memory.
    pub(crate) fn new(alloc: Global) -> Chains
        ensures newest { result.newest.entries ≡ [] }
        ensures older { result.older.items ≡ [] }
    {
        Chains {
            newest: IndexMap::new(alloc),
            older: Vec::new(alloc),
        }
    }

    /// Takes the rows in that came since. It costs a look-up for each. After want of memory it has taken some.
    pub(crate) fn follow(&mut self, rows: &IndexMap<Name, bool>) -> Result<(), AllocError>
        requires { AreChained rows.now.entries self.old.newest.entries self.old.older.items }
        ensures { AreChained rows.now.entries self.new.newest.entries self.new.older.items }
    {
        for _ in self.older.len()..rows.len() {
            self.link_next(rows)?;
        }
        Ok(())
    }

    /// Takes the next row in, if there is one.
    fn link_next(&mut self, rows: &IndexMap<Name, bool>) -> Result<(), AllocError>
        requires { AreChained rows.now.entries self.old.newest.entries self.old.older.items }
        ensures { AreChained rows.now.entries self.new.newest.entries self.new.older.items }
    {
        let place = self.older.len();
        let Some((name, _)) = rows.get_index(place) else {
            return Ok(());
        };
        let hash = hash_of(name.value());
        let before = self.newest_live(rows, hash);
        self.older.reserve(1)?;
        self.newest.insert(hash, place + 1)?;
        self.older.push_reserved(before);
        Ok(())
    }

    /// Leaves out the newest rows of a value's hash that are dead by now, so that they aren't passed again.
    pub(crate) fn prune(
        &mut self,
        rows: &IndexMap<Name, bool>,
        value: &Value,
    ) -> Result<(), AllocError>
        requires { AreChained rows.now.entries self.old.newest.entries self.old.older.items }
        ensures { AreChained rows.now.entries self.new.newest.entries self.new.older.items }
    {
        let hash = hash_of(value);
        let live = self.newest_live(rows, hash);
        self.newest.insert(hash, live)?;
        Ok(())
    }

    /// Where the chain of a hash begins.
    fn begin(&self, hash: u64) -> usize
        ensures { result ≡ newest_of self.now.newest.entries hash }
    {
        match self.newest.get(&hash) {
            Some(place) => *place,
            None => 0,
        }
    }

    /// One more than the number of the newest row in the chain of a hash that isn't dead, or 0.
    fn newest_live(&self, rows: &IndexMap<Name, bool>, hash: u64) -> usize
        requires { AreChained rows.now.entries self.now.newest.entries self.now.older.items }
        ensures behind { IsBehind rows.now.entries hash (length self.now.older.items) result }
        ensures live { (i : ℕ) → i < length self.now.older.items → IsLiveAt rows.now.entries hash i → i < result }
    {
        let mut behind = self.begin(hash);
        while behind > 0 && is_dead(rows, behind - 1) {
            behind = self.older[behind - 1];
        }
        behind
    }

    /// One more than the number of the newest live row of a value, or 0.
    pub(crate) fn newest_row(&self, rows: &IndexMap<Name, bool>, value: &Value) -> usize
        requires { AreChained rows.now.entries self.now.newest.entries self.now.older.items }
        ensures behind { IsBehind rows.now.entries (value_hash (val_of value.now)) (length self.now.older.items) result }
        ensures found { (k : ℕ) → result ≡ suc k → IsLiveRow rows.now.entries (val_of value.now) k }
        ensures passed { (i : ℕ) → IsLiveRow rows.now.entries (val_of value.now) i → i < length self.now.older.items → i < result }
    {
        self.live_from(rows, self.begin(hash_of(value)), value)
    }

    /// From a row in the chain of a value back one more than the number of the live row of the value before it, or 0.
    pub(crate) fn row_before(&self, rows: &IndexMap<Name, bool>, row: usize, value: &Value) -> usize
        requires chained { AreChained rows.now.entries self.now.newest.entries self.now.older.items }
        requires row { IsBehind rows.now.entries (value_hash (val_of value.now)) (length self.now.older.items) (suc row) }
        ensures behind { IsBehind rows.now.entries (value_hash (val_of value.now)) (length self.now.older.items) result }
        ensures found { (k : ℕ) → result ≡ suc k → IsLiveRow rows.now.entries (val_of value.now) k }
        ensures passed { (i : ℕ) → IsLiveRow rows.now.entries (val_of value.now) i → i < row → i < result }
        ensures falls { result ≤ row }
    {
        self.live_from(rows, self.older[row], value)
    }

    fn live_from(&self, rows: &IndexMap<Name, bool>, begin: usize, value: &Value) -> usize
        requires chained { AreChained rows.now.entries self.now.newest.entries self.now.older.items }
        requires begin { IsBehind rows.now.entries (value_hash (val_of value.now)) (length self.now.older.items) begin }
        ensures behind { IsBehind rows.now.entries (value_hash (val_of value.now)) (length self.now.older.items) result }
        ensures found { (k : ℕ) → result ≡ suc k → IsLiveRow rows.now.entries (val_of value.now) k }
        ensures passed { (i : ℕ) → IsLiveRow rows.now.entries (val_of value.now) i → i < begin → i < result }
        ensures falls { result ≤ begin }
    {
        let mut behind = begin;
        while behind > 0 && !is_live_row(rows, behind - 1, value) {
            behind = self.older[behind - 1];
        }
        behind
    }
}

/// The same for equal values.
pub(crate) fn hash_of(value: &Value) -> u64
    ensures { result ≡ value_hash (val_of value.now) }
{
    let mut state = FoldHasher::default();
    hash_value(value, &mut state);
    state.finish()
}

/// Whether no live row is at a place.
pub(crate) fn is_dead(rows: &IndexMap<Name, bool>, place: usize) -> bool
    ensures { result ≡ true → (h : ℕ) → ¬ IsLiveAt rows.now.entries h place }
{
    match rows.get_index(place) {
        Some((_, dead)) => *dead,
        None => true,
    }
}
