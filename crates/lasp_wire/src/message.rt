//! The messages between replicas.

ghost use Rattle.std.specs.Prelude.{◌≡◌, ◌<◌, [], Some, OnOk, OnErr, length, map, slice_get};
ghost use Rattle.lasp_wire.specs.Prelude.{option_map, IsMessage, held_of, held_in, sent, sent_of, message, with_source};

use super::counts::Counts;
use super::source::Source;
use lasp_state::State;
use lasp_value::Name;
use std::alloc::{AllocError, Global};
use std::marker::Model;

/// A message: how many updates of each replica its sender knows, and the sender's sources with their states. What it holds is always within the ranges of the format.
#[derive(Drop)]
pub struct Message {
    counts: Counts,
    sources: Vec<Source>,
}

impl Model for Message {
    ghost use Rattle.std.specs.Prelude.{map};
    ghost use Rattle.model_graph.specs.Message as plain;
    ghost use Rattle.model_wire.specs.Lawful.{IsMessage};
    ghost use Rattle.lasp_wire.specs.Sent.{message, sent_of, coded_message};

    ghost Value = { plain.Message };

    ghost coded = { coded_message };

    ghost view = { λ a. message a.counts (map sent_of a.sources.items) };

    ghost invariant = { λ a. IsMessage (message a.counts (map sent_of a.sources.items)) };
}

impl Message {
    /// A message with these counts and no sources.
    pub fn new(alloc: Global, counts: Counts) -> Message
        requires { IsMessage (message counts []) }
        ensures { result ≡ message counts [] }
    {
        Message {
            counts,
            sources: Vec::new(alloc),
        }
    }

    /// A message of these counts and sources.
    pub(crate) fn of(counts: Counts, sources: Vec<Source>) -> Message
        requires { IsMessage (message counts (map sent_of sources.items)) }
        ensures { result ≡ message counts (map sent_of sources.items) }
    {
        Message { counts, sources }
    }

    /// Appends a source, whose kind is that of the state. It copies the name and shares the state's rows.
    pub fn push(&mut self, name: &Name, state: &State) -> Result<(), AllocError>
        requires { IsMessage (with_source self.old (sent name.now state.now)) }
        ensures ok { OnOk result (self.new ≡ with_source self.old (sent name.now state.now)) }
        ensures err { OnErr result (self.new ≡ self.old) }
    {
        let source = Source {
            name: name.try_clone()?,
            state: state.past()?,
        };
        self.sources.push(source)?;
        Ok(())
    }

    /// The same sources with other counts.
    pub fn with_counts(self, counts: Counts) -> Message
        requires { IsMessage (message counts self.sources) }
        ensures { result ≡ message counts self.sources }
    {
        Message {
            counts,
            sources: self.sources,
        }
    }

    /// Recalls, at no cost, that it is a message whose parts are in their ranges.
    pub fn recall(&self)
        ensures { IsMessage self.now }
    {
        let _counts = &self.counts;
    }

    /// How many updates of each replica the sender knows.
    pub fn counts(&self) -> &Counts
        ensures { result.now ≡ self.now.counts }
    {
        &self.counts
    }

    /// The number of sources.
    pub fn len(&self) -> u64
        ensures { result ≡ length self.now.sources }
    {
        self.sources.len() as u64
    }

    /// The name of a source, by its place from 0.
    pub fn name_at(&self, i: u64) -> &Name
        requires { i < length self.now.sources }
        ensures { option_map (λ s. s.decl.name) (slice_get self.now.sources i) ≡ Some result.now }
    {
        &self.sources[i as usize].name
    }

    /// What a source holds, by its place from 0.
    pub fn state_at(&self, i: u64) -> &State
        requires { i < length self.now.sources }
        ensures { option_map held_in (slice_get self.now.sources i) ≡ Some (held_of result.now) }
    {
        &self.sources[i as usize].state
    }

    /// The sources.
    pub(crate) fn sources(&self) -> &[Source]
        ensures { map sent_of result.now ≡ self.now.sources }
    {
        self.sources.as_slice()
    }
}
