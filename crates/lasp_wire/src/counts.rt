//! How many updates of each replica a message knows.

ghost use Rattle.std.specs.Prelude.{◌≡◌, ◌<◌, ◌↔◌, ◌++◌, ◌∷◌, [], IsTrue, Some, IfOk, OnOk, OnErr, length, slice_get, slice_set};
ghost use Rattle.model_states.specs.Counts.{AreCountsAtMost};

use lasp_state::are_at_most;
use std::alloc::{AllocError, Global};
use std::marker::Model;

/// A list of counts, one for each node, seen as this list.
#[derive(Drop)]
pub struct Counts {
    items: Vec<u64>,
}

impl Model for Counts {
    ghost use Rattle.std.specs.Prelude.{List, ℕ};

    ghost Value = { List ℕ };

    ghost view = { λ a. a.items.items };
}

impl Counts {
    /// The empty list; it takes no memory yet.
    pub fn new(alloc: Global) -> Counts
        ensures { result ≡ [] }
    {
        Counts {
            items: Vec::new(alloc),
        }
    }

    /// A copy of these counts.
    pub fn from_slice(alloc: Global, items: &[u64]) -> Result<Counts, AllocError>
        ensures { IfOk result (λ counts. counts ≡ items.now) }
    {
        let mut copy = Vec::new(alloc);
        copy.extend_from_slice(items)?;
        Ok(Counts::of(copy))
    }

    /// Takes a vector over, without a copy.
    pub(crate) fn of(items: Vec<u64>) -> Counts
        ensures { result ≡ items.items }
    {
        Counts { items }
    }

    /// Appends a count.
    pub fn push(&mut self, item: u64) -> Result<(), AllocError>
        ensures ok { OnOk result (self.new ≡ self.old ++ item ∷ []) }
        ensures err { OnErr result (self.new ≡ self.old) }
    {
        self.items.push(item)?;
        Ok(())
    }

    /// The number of counts.
    pub fn len(&self) -> u64
        ensures { result ≡ length self.now }
    {
        self.items.len() as u64
    }

    /// The count at a place, counted from 0.
    pub fn at(&self, i: u64) -> u64
        requires { i < length self.now }
        ensures { slice_get self.now i ≡ Some result }
    {
        self.items[i as usize]
    }

    /// The count at a place becomes this one.
    pub fn set(&mut self, i: u64, count: u64)
        requires { i < length self.old }
        ensures { self.new ≡ slice_set self.old i count }
    {
        self.items[i as usize] = count;
    }

    /// The counts.
    pub fn as_slice(&self) -> &[u64]
        ensures { result.now ≡ self.now }
    {
        self.items.as_slice()
    }

    /// Whether no count is above the other one.
    pub fn is_at_most(&self, others: &Counts) -> bool
        requires { length self.now ≡ length others.now }
        ensures { IsTrue result ↔ AreCountsAtMost self.now others.now }
    {
        are_at_most(self.items.as_slice(), others.items.as_slice())
    }
}
