//! The counter: one count for each node, of which each only rises.

ghost use Rattle.std.specs.Prelude.{◌≡◌, ◌≢◌, ◌<◌, ◌≤◌, ◌↔◌, IsTrue, IfOk, IsOk, length, slice_set, sum, refl};
ghost use Rattle.lasp_state.specs.Prelude.{count_max, count_at, zeros, inc_delta, AreCounts, larger, AreAtMost, HaveSameNodes};
ghost use Rattle.std.proofs.Common.{sym, ◌∙◌, arith};

use super::raise::{are_at_most, raise, sum_of};
use lasp_value::Lattice;
use std::alloc::{AllocError, Global};
use std::marker::Model;

/// The most that one node can count: 100,000 updates, each of at most 2^32 - 1.
pub const COUNT_MAX: u64 = 429_496_729_500_000;

/// A counter of a fixed number of nodes, seen as the list of their counts.
#[derive(Drop)]
pub struct GCount {
    counts: Vec<u64>,
}

impl Model for GCount {
    ghost use Rattle.std.specs.Prelude.{List, ℕ};
    ghost use Rattle.lasp_state.specs.Counts.{AreCounts};

    ghost Value = { List ℕ };

    ghost view = { λ a. a.counts.items };

    ghost invariant = { λ a. AreCounts a.counts.items };
}

impl GCount {
    /// The counter of so many nodes of which none counted yet.
    pub fn new(alloc: Global, nodes: u8) -> Result<GCount, AllocError>
        ensures { IfOk result (λ c. c ≡ zeros nodes) }
    {
        let mut counts = Vec::new(alloc);
        counts.resize(usize::from(nodes), 0)?;
        Ok(GCount { counts })
    }

    /// An equal counter.
    pub fn try_clone(&self) -> Result<GCount, AllocError>
        ensures { IfOk result (λ c. c ≡ self.now) }
    {
        let counts = Vec::from_slice(*self.counts.allocator(), self.counts.as_slice())?;
        Ok(GCount { counts })
    }

    /// Recalls, at no cost, what every counter is.
    pub fn holds(&self)
        ensures { AreCounts self.now }
    {
        let _counts = &self.counts;
    }

    /// The number of nodes.
    pub fn nodes(&self) -> u8
        ensures { result ≡ length self.now }
    {
        self.counts.len() as u8
    }

    /// The count of one node.
    pub fn count_of(&self, replica: u8) -> u64
        requires { replica < length self.now }
        ensures exact { result ≡ count_at self.now replica }
        ensures small { result ≤ count_max }
    {
        self.counts[usize::from(replica)]
    }

    /// The sum of all counts, below 2^57.
    pub fn total(&self) -> u64
        ensures { result ≡ sum self.now }
    {
        sum_of(self.counts.as_slice())
    }

    /// Sets the count of one node, and leaves all others.
    pub fn set_count(&mut self, replica: u8, count: u64)
        requires known { replica < length self.old }
        requires small { count ≤ count_max }
        ensures { self.new ≡ slice_set self.old replica count }
    {
        self.counts[usize::from(replica)] = count;
    }

    /// What an update of a node joins in where it counts so many more. Its count is held at `COUNT_MAX`.
    pub fn inc_delta(&self, replica: u8, by: u32) -> Result<GCount, AllocError>
        requires { replica < length self.now }
        ensures { IfOk result (λ d. d ≡ inc_delta self.now replica by) }
    {
        let count = self.count_of(replica) + u64::from(by);
        let mut delta = GCount::new(*self.counts.allocator(), self.nodes())?;
        delta.set_count(replica, count.min(COUNT_MAX));
        Ok(delta)
    }

    /// Whether no node counted more here than there.
    pub fn is_at_most(&self, other: &GCount) -> bool
        requires { HaveSameNodes self.now other.now }
        ensures { IsTrue result ↔ AreAtMost self.now other.now }
    {
        are_at_most(self.counts.as_slice(), other.counts.as_slice())
    }

    /// Joins another counter in, and tells whether this one grew. It takes no memory.
    pub fn raise(&mut self, other: &GCount) -> bool
        requires { HaveSameNodes self.old other.now }
        ensures ok { self.new ≡ larger self.old other.now }
        ensures grew { IsTrue result ↔ (self.new ≢ self.old) }
    {
        raise(self.counts.as_mut_slice(), other.counts.as_slice())
    }
}

impl Lattice for GCount {
    ghost use Rattle.lasp_state.specs.CountLaws as laws;

    ghost is_state = { AreCounts };

    ghost same_shape = { HaveSameNodes };

    ghost below = { AreAtMost };

    ghost join = { larger };

    ghost least = { λ s. zeros (length s) };

    fn known(&self) {
        self.holds()
    }

    fn bottom_like(&self) -> Result<GCount, AllocError> {
        GCount::new(*self.counts.allocator(), self.nodes())
    }

    fn le(&self, other: &GCount) -> bool {
        self.is_at_most(other)
    }

    /// It takes no memory, and so it always succeeds.
    fn join_in(&mut self, other: &GCount) -> Result<bool, AllocError>
        requires { HaveSameNodes self.old other.now }
        ensures always { IsOk result }
        ensures ok { self.new ≡ larger self.old other.now }
        ensures grew { IfOk result (λ grew. IsTrue grew ↔ (self.new ≢ self.old)) }
    {
        Ok(self.raise(other))
    }

    ghost shape_reflexive = { λ _. refl };

    ghost shape_symmetric = { λ _ _ e. sym e };

    ghost shape_transitive = { λ _ _ _ e f. e ∙ f };

    ghost shape_join = { laws.shape-larger };

    ghost shape_least = { laws.shape-zeros };

    ghost state_join = { laws.counts-larger };

    ghost state_least = { λ s h. laws.counts-zeros (length s) h.few };

    ghost reflexive = { λ s _ node. omega arith };

    ghost transitive = { λ s t u _ _ _ _ _ a b node. omega (arith, a node, b node) };

    ghost antisymmetric = { λ s t _ _. laws.at_most-antisymmetric s t };

    ghost idempotent = { λ s _. laws.larger-idempotent s };

    ghost commutative = { λ s t _ _. laws.larger-commutative s t };

    ghost associative = { λ s t u _ _ _. laws.larger-associative s t u };

    ghost upper_left = { λ s t _ _. laws.larger-left s t };

    ghost upper_right = { λ s t _ _. laws.larger-right s t };

    ghost least_upper = { λ s t u _ _ _ e _. laws.larger-least s t u e };

    ghost lowest = { λ s t _ _ _. laws.zeros-lowest (length s) t };
}
