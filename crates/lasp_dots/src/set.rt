//! The set: the least one, what an add and a remove do, and the join.

ghost use Rattle.std.specs.Prelude.{◌≡◌, ◌≤◌, ◌<◌, ◌↔◌, ◌+◌, IfOk, OnOk, OnErr, Err, length};
ghost use Rattle.lasp_dots.specs.Prelude.{count_at, count_limit, IsState, IsAtMost, no_dots, add_dot, remove_dots, val_of, CountFull};

use super::changes::{put_in, take_out};
use super::dot::Dot;
use super::refused::DotRefused;
use crate::pieces::Pieces;
use lasp_value::{Token, Value};
use std::alloc::{AllocError, Global};
use std::marker::Model;

/// The most updates of one replica.
const COUNT_LIMIT: u64 = 100_000;

/// A set without tombstones, seen as its live rows, ascending by value and then by token, and the count of each node.
#[derive(Drop)]
pub struct DotSet {
    pub(crate) live: Pieces<Dot>,
    pub(crate) known: Vec<u64>,
}

impl Model for DotSet {
    ghost use Rattle.model_dots.specs.Dots.{Dots, IsState, coded_dots};

    ghost Value = { Dots };

    ghost coded = { coded_dots };

    ghost view = { λ a. record { rows = a.live; counts = a.known.items } };

    ghost invariant = { λ a. IsState (record { rows = a.live; counts = a.known.items }) };
}

impl DotSet {
    /// The least set of so many nodes, which has no pairs and counts no update.
    pub fn new(alloc: Global, nodes: u8) -> Result<DotSet, AllocError>
        requires some { 1 ≤ nodes }
        requires few { nodes ≤ 8 }
        ensures { IfOk result (λ s. s ≡ no_dots nodes) }
    {
        let mut known = Vec::new(alloc);
        known.resize(usize::from(nodes), 0)?;
        Ok(DotSet {
            live: Pieces::new(alloc),
            known,
        })
    }

    /// An equal set; it shares the pairs, so that the cost is one share for each piece of mostly 64 to 128 pairs.
    pub fn try_clone(&self) -> Result<DotSet, AllocError>
        ensures { IfOk result (λ s. s ≡ self.now) }
    {
        let alloc = *self.known.allocator();
        let known = Vec::from_slice(alloc, self.known.as_slice())?;
        Ok(DotSet {
            live: self.live.share()?,
            known,
        })
    }

    /// Recalls, at no cost, what every set is.
    pub fn holds(&self)
        ensures { IsState self.now }
    {
        let _live = &self.live;
    }

    /// A replica adds a value, under the token of this update; it answers the update's number. It costs one copy of the value, a search, and a copy of at most 128 shares where another set has the piece in which the pair belongs.
    pub fn add(&mut self, value: &Value, replica: u8) -> Result<u64, DotRefused>
        requires { replica < length self.old.counts }
        ensures ok { OnOk result (self.new ≡ add_dot (val_of value.now) replica self.old) }
        ensures number { IfOk result (λ k. k ≡ count_at self.new.counts replica) }
        ensures grows { IsAtMost self.old self.new }
        ensures full { (result ≡ Err CountFull) ↔ (count_at self.old.counts replica ≡ count_limit) }
        ensures err { OnErr result (self.new ≡ self.old) }
    {
        self.holds();
        let k = self.next_count(replica)?;
        let alloc = *self.known.allocator();
        let dot = Dot::new(alloc, value.try_clone(alloc)?, Token::Base(replica, k))?;
        put_in(&mut self.live, dot)?;
        self.known[usize::from(replica)] = k;
        Ok(k)
    }

    /// A replica removes a value: all its pairs go. It answers the update's number. It costs two searches, and a copy of what is left of the pieces that the pairs are in.
    pub fn remove(&mut self, value: &Value, replica: u8) -> Result<u64, DotRefused>
        requires { replica < length self.old.counts }
        ensures ok { OnOk result (self.new ≡ remove_dots (val_of value.now) replica self.old) }
        ensures number { IfOk result (λ k. k ≡ count_at self.new.counts replica) }
        ensures grows { IsAtMost self.old self.new }
        ensures full { (result ≡ Err CountFull) ↔ (count_at self.old.counts replica ≡ count_limit) }
        ensures err { OnErr result (self.new ≡ self.old) }
    {
        self.holds();
        let number = self.next_count(replica)?;
        take_out(&mut self.live, value)?;
        self.known[usize::from(replica)] = number;
        Ok(number)
    }

    /// The number of the replica's next update.
    fn next_count(&self, replica: u8) -> Result<u64, DotRefused>
        requires { replica < length self.now.counts }
        ensures ok { IfOk result (λ k. k ≡ count_at self.now.counts replica + 1) }
        ensures left { IfOk result (λ _. count_at self.now.counts replica < count_limit) }
        ensures full { (result ≡ Err CountFull) ↔ (count_at self.now.counts replica ≡ count_limit) }
    {
        let count = self.known[usize::from(replica)];
        if count == COUNT_LIMIT {
            return Err(DotRefused::CountFull);
        }
        Ok(count + 1)
    }
}
