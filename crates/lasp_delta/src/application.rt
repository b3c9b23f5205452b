//! What a delta makes of a message.

ghost use Rattle.std.specs.Prelude.{◌≡◌, ◌<◌, ◌≤◌, IfOk, Some, length, max, slice_get};
ghost use Rattle.model_states.specs.Counts.{larger};
ghost use Rattle.model_deltas.specs.Delta.{carried};
ghost use Rattle.model_deltas.specs.Applied.{first_gap, joined_sources, joined, limited, applied};
ghost use Rattle.model_deltas.specs.Before.{AreAlike};
ghost use Rattle.lasp_wire.specs.Sent.{sent};
ghost use Rattle.lasp_delta.specs.Answered.{Finds, Answers, AnswersInWorlds};

use super::delta::Delta;
use super::refused::DeltaRefused;
use super::source::source_at;
use lasp_state::State;
use lasp_value::Name;
use lasp_wire::{Counts, Message};
use std::alloc::{AllocError, Global};

/// The most rows or elements of a source.
const MOST_ROWS: u64 = 65_536;

/// A message with what a delta carries. `Delta::suits` tells whether both are of one graph and of as many nodes; of messages of one world this holds. It is refused for a gap before all else, and then for the least source that would be too large.
/// Where message and delta are of one world, the delta from one message to a later one does what the later one does: what comes of it is what the message and the later one have together, or a gap, or the source of these that is too large.
/// It costs a share of the message's rows, and a table of each of its sets to which the delta brings rows, unless both are short.
pub fn apply(alloc: Global, base: &Message, delta: &Delta) -> Result<Message, DeltaRefused>
    requires { AreAlike base.now (carried delta.now) }
    ensures answers { Answers result (applied base.now delta.now) }
    ensures world { AnswersInWorlds base.now delta.now result }
{
    apply_to(alloc, base, delta)
}

/// The same, by what applying means alone.
fn apply_to(alloc: Global, base: &Message, delta: &Delta) -> Result<Message, DeltaRefused>
    requires { AreAlike base.now (carried delta.now) }
    ensures { Answers result (applied base.now delta.now) }
{
    base.recall();
    delta.recall();
    match delta.check_gap(base.counts()) {
        Ok(()) => join_messages(alloc, base, delta.carried()),
        Err(gap) => Err(gap),
    }
}

impl Delta {
    /// Refuses counts that tell of too few updates for the delta, by the first replica of which fewer are counted than it goes on from. Where it accepts those of a replica, what the delta carries brings that replica what the later message would.
    pub fn check_gap(&self, counts: &Counts) -> Result<(), DeltaRefused>
        requires { length counts.now ≡ length self.now.from }
        ensures { Finds result (first_gap 0 counts.now self.now.from) }
    {
        self.recall();
        check_gap(counts, self.from())
    }
}

/// The first replica of which fewer updates are counted than are needed.
fn check_gap(counts: &Counts, from: &Counts) -> Result<(), DeltaRefused>
    requires long { length from.now ≤ length counts.now }
    requires few { length counts.now ≤ 8 }
    ensures { Finds result (first_gap 0 counts.now from.now) }
{
    for i in 0..from.len() {
        let have = counts.at(i);
        let need = from.at(i);
        if have < need {
            return Err(DeltaRefused::Gap {
                replica: i as u8,
                have,
                from: need,
            });
        }
    }
    Ok(())
}

/// The larger count of each node.
fn larger_counts(alloc: Global, counts: &Counts, others: &Counts) -> Result<Counts, AllocError>
    requires { length counts.now ≡ length others.now }
    ensures { IfOk result (λ all. all ≡ larger counts.now others.now) }
{
    let mut all = Counts::from_slice(alloc, counts.as_slice())?;
    for i in 0..others.len() {
        let count = all.at(i).max(others.at(i));
        all.set(i, count);
    }
    Ok(all)
}

/// What two messages have together, or the first source that would be too large.
fn join_messages(alloc: Global, base: &Message, more: &Message) -> Result<Message, DeltaRefused>
    requires { AreAlike base.now more.now }
    ensures { Answers result (limited (joined base.now more.now)) }
{
    base.recall();
    more.recall();
    let counts = larger_counts(alloc, base.counts(), more.counts())?;
    let mut all = Message::new(alloc, counts);
    for i in 0..base.len().max(more.len()) {
        let (name, state) = joined_source(base, more, i)?;
        if state.size() > MOST_ROWS {
            return Err(DeltaRefused::TooManyRows(i as u8));
        }
        all.recall();
        all.push(name, &state)?;
    }
    Ok(all)
}

/// The name of a source, and what two messages have of it.
fn joined_source<'a>(
    base: &'a Message,
    more: &'a Message,
    i: u64,
) -> Result<(&'a Name, State), AllocError>
    requires alike { AreAlike base.now more.now }
    requires within { i < max (length base.now.sources) (length more.now.sources) }
    ensures { IfOk result (λ x. slice_get (joined_sources base.now.sources more.now.sources) i ≡ Some (sent x.0.now x.1)) }
{
    base.recall();
    more.recall();
    if i >= base.len() {
        let (name, state) = source_at(more, i);
        return Ok((name, state.try_clone()?));
    }
    let (name, state) = source_at(base, i);
    let mut all = state.try_clone()?;
    if i < more.len() {
        let (_, new) = source_at(more, i);
        all.join_in(new)?;
    }
    Ok((name, all))
}
