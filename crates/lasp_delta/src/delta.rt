//! Deltas as values.

ghost use Rattle.std.specs.Prelude.{◌≡◌, ◌↔◌, IsTrue};
ghost use Rattle.model_deltas.specs.Delta.{carried};
ghost use Rattle.model_deltas.specs.Before.{AreSourcesAlike, AreAlike, IsDelta};
ghost use Rattle.lasp_delta.specs.Delta.{going_on};

use super::source::are_same_source;
use lasp_wire::{Counts, Message};
use std::marker::Model;

/// What changed from one message of a sender to a later one: the counts from which it goes on, and as a message the later counts with what changed in each source. What it holds is always within the ranges of its format.
#[derive(Drop)]
pub struct Delta {
    from: Counts,
    carried: Message,
}

impl Model for Delta {
    ghost use Rattle.model_deltas.specs.Before.{IsDelta};
    ghost use Rattle.model_deltas.specs.Delta as plain;
    ghost use Rattle.lasp_delta.specs.Delta.{going_on, coded_delta};

    ghost Value = { plain.Delta };

    ghost coded = { coded_delta };

    ghost view = { λ a. going_on a.from a.carried };

    ghost invariant = { λ a. IsDelta (going_on a.from a.carried) };
}

impl Delta {
    /// A delta that goes on from these counts to those of a message that carries the changes.
    pub(crate) fn of(from: Counts, carried: Message) -> Delta
        requires { IsDelta (going_on from carried) }
        ensures { result ≡ going_on from carried }
    {
        Delta { from, carried }
    }

    /// Recalls, at no cost, that it is a delta whose parts are in their ranges.
    pub fn recall(&self)
        ensures { IsDelta self.now }
    {
        let _from = &self.from;
    }

    /// How many updates of each replica the earlier message knew.
    pub fn from(&self) -> &Counts
        ensures { result.now ≡ self.now.from }
    {
        &self.from
    }

    /// How many updates of each replica the later message knew, and what changed in its sources.
    pub fn carried(&self) -> &Message
        ensures { result.now ≡ carried self.now }
    {
        &self.carried
    }

    /// Whether the delta may be applied to a message: both are among as many nodes, and the sources of the one with fewer are the first of the other's, by name and kind. It costs a comparison for each source, and takes no memory.
    pub fn suits(&self, base: &Message) -> bool
        ensures { IsTrue result ↔ AreAlike base.now (carried self.now) }
    {
        base.counts().len() == self.carried.counts().len() && are_alike(base, &self.carried)
    }
}

/// Whether the sources of the message with fewer are the first of the other's.
fn are_alike(base: &Message, more: &Message) -> bool
    ensures { IsTrue result ↔ AreSourcesAlike base.now.sources more.now.sources }
{
    base.recall();
    more.recall();
    for i in 0..base.len().min(more.len()) {
        if !are_same_source(base, more, i) {
            return false;
        }
    }
    true
}
