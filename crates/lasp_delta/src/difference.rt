//! The delta between two messages.

ghost use Rattle.std.specs.Prelude.{◌≡◌, ◌<◌, ◌↔◌, IfOk, IsTrue, Some, length, slice_get};
ghost use Rattle.model_states.specs.Content.{IsContentAtMost};
ghost use Rattle.model_graph.specs.Message.{Sent};
ghost use Rattle.model_deltas.specs.Delta.{changed_sources, delta_of, carried};
ghost use Rattle.model_deltas.specs.Before.{AreSourcesBefore, IsBefore, AreAlike};
ghost use Rattle.lasp_wire.specs.Sent.{sent};

use super::changed::changed_state;
use super::delta::Delta;
use super::source::{are_same_source, source_at};
use lasp_state::State;
use lasp_value::Name;
use lasp_wire::{Counts, Message};
use std::alloc::{AllocError, Global};

/// The delta from a message to a later one of the same sender. The earlier one has no count and no source above the later one's, and its sources are the first of the later one's: this holds of any two messages of one node in the order in which it made them.
/// Of an observed-remove set that only grew since, as a node's own does, it costs a comparison for each row of the earlier message; of another one a table of these, and a look-up for each row of the later message.
/// Of a grow-only set it costs a table of the earlier elements, a look-up for each later one, and a sort of these. It takes memory for what is new besides.
/// Where it is kept what came since, `delta_since` passes over that alone.
pub fn delta_of(alloc: Global, before: &Message, after: &Message) -> Result<Delta, AllocError>
    requires { IsBefore before.now after.now }
    ensures { IfOk result (λ delta. delta ≡ delta_of before.now after.now) }
{
    before.recall();
    after.recall();
    let from = Counts::from_slice(alloc, before.counts().as_slice())?;
    let carried = changes(alloc, before, after)?;
    Ok(Delta::of(from, carried))
}

/// The later counts, and what changed in each source.
fn changes(alloc: Global, before: &Message, after: &Message) -> Result<Message, AllocError>
    requires { IsBefore before.now after.now }
    ensures { IfOk result (λ changes. changes ≡ carried (delta_of before.now after.now)) }
{
    before.recall();
    after.recall();
    let counts = Counts::from_slice(alloc, after.counts().as_slice())?;
    let mut changes = Message::new(alloc, counts);
    for i in 0..after.len() {
        let (name, state) = changed_source(alloc, before, after, i)?;
        changes.recall();
        changes.push(name, &state)?;
    }
    Ok(changes)
}

/// The name of a source, and what changed in it; everything where the earlier message lacks the source.
pub(crate) fn changed_source<'a>(
    alloc: Global,
    before: &Message,
    after: &'a Message,
    i: u64,
) -> Result<(&'a Name, State), AllocError>
    requires alike { AreAlike before.now after.now }
    requires within { i < length after.now.sources }
    ensures { IfOk result (λ x. slice_get (changed_sources before.now.sources 0 after.now.sources) i ≡ Some (sent x.0.now x.1)) }
{
    before.recall();
    after.recall();
    let (name, state) = source_at(after, i);
    if i < before.len() {
        let (_, old) = source_at(before, i);
        Ok((name, changed_state(alloc, old, state)?))
    } else {
        Ok((name, state.try_clone()?))
    }
}

/// Whether a delta leads from the first message to the second: both are among as many nodes, no count of the first is above the second one's, and its sources are the first of the second one's, by name and kind, and hold no more there. Of two messages that one node made this holds in the order in which it made them. It costs what `State::le` costs for each source, and takes no memory.
pub fn is_before(before: &Message, after: &Message) -> bool
    ensures { IsTrue result ↔ IsBefore before.now after.now }
{
    before.counts().len() == after.counts().len()
        && before.counts().is_at_most(after.counts())
        && are_sources_before(before, after)
}

/// Whether the sources of the first message are the first of the second one's, and hold no more there.
fn are_sources_before(before: &Message, after: &Message) -> bool
    requires { length before.now.counts ≡ length after.now.counts }
    ensures { IsTrue result ↔ AreSourcesBefore before.now.sources after.now.sources }
{
    if before.len() > after.len() {
        return false;
    }
    for i in 0..before.len() {
        if !is_source_before(before, after, i) {
            return false;
        }
    }
    true
}

/// Whether both messages have the same source at a place, and the first holds no more of it.
fn is_source_before(before: &Message, after: &Message, i: u64) -> bool
    requires nodes { length before.now.counts ≡ length after.now.counts }
    requires here { i < length before.now.sources }
    requires there { i < length after.now.sources }
    ensures { (s t : Sent) → slice_get before.now.sources i ≡ Some s → slice_get after.now.sources i ≡ Some t → IsTrue result ↔ ((s.decl ≡ t.decl) × IsContentAtMost s.content t.content) }
{
    before.recall();
    after.recall();
    let (_, state) = source_at(before, i);
    let (_, other) = source_at(after, i);
    are_same_source(before, after, i) && state.le(other)
}
