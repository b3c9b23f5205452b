//! The order and the join of sets.

ghost use Rattle.std.specs.Prelude.{◌≡◌, ◌≢◌, ◌↔◌, IfOk, OnOk, OnErr, IsTrue};
ghost use Rattle.lasp_dots.specs.Prelude.{list_all, IsAscending, HaveSameNodes, join_dots, IsAtMost, outlives};

use super::counts::{are_at_most, raise};
use super::dot::Dot;
use super::search::holds;
use super::set::DotSet;
use super::weave::woven;
use crate::pieces::Pieces;
use std::alloc::AllocError;

impl DotSet {
    /// The order: the join with the other set is the other set. Where the other one counts all that this one counts, each of its pairs whose update this one counts costs a search.
    pub fn le(&self, other: &DotSet) -> bool
        requires { HaveSameNodes self.now other.now }
        ensures { IsTrue result ↔ IsAtMost self.now other.now }
    {
        self.holds();
        other.holds();
        are_at_most(&self.known, &other.known) && all_outlive(&self.live, &self.known, &other.live)
    }

    /// Joins another set in, and tells whether this made a difference. It costs a comparison for each pair of the two sets.
    pub fn join_in(&mut self, other: &DotSet) -> Result<bool, AllocError>
        requires { HaveSameNodes self.old other.now }
        ensures ok { OnOk result (self.new ≡ join_dots self.old other.now) }
        ensures grew { IfOk result (λ grew. IsTrue grew ↔ (self.new ≢ self.old)) }
        ensures grows { IsAtMost self.old self.new }
        ensures err { OnErr result (self.new ≡ self.old) }
    {
        self.holds();
        other.holds();
        if other.le(self) {
            return Ok(false);
        }
        self.join_all(other)?;
        Ok(true)
    }

    fn join_all(&mut self, other: &DotSet) -> Result<(), AllocError>
        requires { HaveSameNodes self.old other.now }
        ensures ok { OnOk result (self.new ≡ join_dots self.old other.now) }
        ensures err { OnErr result (self.new ≡ self.old) }
    {
        self.holds();
        other.holds();
        let alloc = *self.known.allocator();
        self.live = woven(alloc, &self.live, &self.known, &other.live, &other.known)?;
        raise(&mut self.known, &other.known);
        Ok(())
    }
}

/// Whether each pair of the others outlives the join with these: it is among these, or its update isn't counted here.
fn all_outlive(dots: &Pieces<Dot>, counts: &[u64], others: &Pieces<Dot>) -> bool
    requires { IsAscending dots.now }
    ensures { result ≡ list_all (λ r. outlives (record { rows = dots.now; counts = counts.now }) r.0) others.now }
{
    let mut left = others.iter();
    while let Some(other) = left.next() {
        if other.is_counted(counts) && !holds(dots, other) {
            return false;
        }
    }
    true
}
