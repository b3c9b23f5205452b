//! The delta between two messages, made of what came since the earlier one.

ghost use Rattle.std.specs.Prelude.{◌≡◌, ◌<◌, IfOk, Some, length, slice_get};
ghost use Rattle.model_graph.specs.Message.{Message as Told};
ghost use Rattle.model_deltas.specs.Delta.{changed_sources, delta_of, carried};
ghost use Rattle.lasp_wire.specs.Sent.{sent};
ghost use Rattle.lasp_delta.specs.Since.{LeadTo};

use super::delta::Delta;
use super::difference::changed_source;
use super::source::source_at;
use lasp_state::State;
use lasp_value::Name;
use lasp_wire::{Counts, Message};
use std::alloc::{AllocError, Global};

/// The delta that `delta_of` gives between a message and a later one of the same sender, made of the first and of what came since: of an observed-remove set the rows that are new or newly dead, of other sources all that the later message has.
/// The rows of an observed-remove set are shared: for what both messages have of it this costs nothing. Other sources cost what they cost `delta_of`.
pub fn delta_since(alloc: Global, before: &Message, tail: &Message) -> Result<Delta, AllocError>
    requires { (after : Told) × LeadTo before.now tail.now after }
    ensures { IfOk result (λ delta. (after : Told) → LeadTo before.now tail.now after → delta ≡ delta_of before.now after) }
{
    before.recall();
    tail.recall();
    let from = Counts::from_slice(alloc, before.counts().as_slice())?;
    let carried = changes_since(alloc, before, tail)?;
    Ok(Delta::of(from, carried))
}

/// The later counts, and what changed in each source.
fn changes_since(alloc: Global, before: &Message, tail: &Message) -> Result<Message, AllocError>
    requires { (after : Told) × LeadTo before.now tail.now after }
    ensures { IfOk result (λ changes. (after : Told) → LeadTo before.now tail.now after → changes ≡ carried (delta_of before.now after)) }
{
    before.recall();
    tail.recall();
    let counts = Counts::from_slice(alloc, tail.counts().as_slice())?;
    let mut changes = Message::new(alloc, counts);
    for i in 0..tail.len() {
        let (name, state) = change_since(alloc, before, tail, i)?;
        changes.recall();
        changes.push(name, &state)?;
    }
    Ok(changes)
}

/// The name of a source, and what changed in it.
fn change_since<'a>(
    alloc: Global,
    before: &Message,
    tail: &'a Message,
    i: u64,
) -> Result<(&'a Name, State), AllocError>
    requires leads { (after : Told) × LeadTo before.now tail.now after }
    requires within { i < length tail.now.sources }
    ensures { IfOk result (λ x. (after : Told) → LeadTo before.now tail.now after → slice_get (changed_sources before.now.sources 0 after.sources) i ≡ Some (sent x.0.now x.1)) }
{
    let (name, state) = source_at(tail, i);
    match state {
        State::Set(_) => Ok((name, state.try_clone()?)),
        _ => changed_source(alloc, before, tail, i),
    }
}
