//! What a feeder notes beside its journal.

ghost use Rattle.std.specs.Prelude.{◌≡◌, ◌<◌, ◌++◌, ◌∷◌, [], length, slice_get, Some, None, OnOk, OnErr};

use lasp_state::State;
use lasp_wire::Message;
use std::alloc::{AllocError, Global};
use std::sync::Arc;

/// What the node did that its journal doesn't have.
#[derive(Drop)]
pub enum Noted {
    /// It sent this message to all others.
    Send(Arc<Message>),
    /// It printed this variable, which showed this.
    Print(u8, Arc<State>),
}

/// And how many entries its journal had then.
#[derive(Drop)]
pub struct Note {
    pub place: u64,
    pub what: Noted,
}

/// The notes of one node in their order, and the number of the command at which it failed, if it did.
#[derive(Drop)]
pub struct Diary {
    pub(crate) notes: Vec<Note>,
    pub(crate) failed: Option<u32>,
}

impl Diary {
    /// A diary without notes.
    pub(crate) fn new(alloc: Global) -> Diary
        ensures { (result.notes.items ≡ []) × (result.failed ≡ None) }
    {
        Diary {
            notes: Vec::new(alloc),
            failed: None,
        }
    }

    /// Notes what was done when the journal had so many entries.
    pub(crate) fn note(&mut self, place: u64, what: Noted) -> Result<(), AllocError>
        ensures ok { OnOk result (self.new.notes.items ≡ self.old.notes.items ++ record { place = place; what = what } ∷ []) }
        ensures err { OnErr result (self.new.notes.items ≡ self.old.notes.items) }
        ensures failed { self.new.failed ≡ self.old.failed }
    {
        self.notes.push(Note { place, what })?;
        Ok(())
    }

    /// The number of notes.
    pub fn len(&self) -> u64
        ensures { result ≡ length self.now.notes.items }
    {
        self.notes.len() as u64
    }

    /// The note at a place, counted from 0.
    pub fn at(&self, i: u64) -> &Note
        requires { i < length self.now.notes.items }
        ensures { slice_get self.now.notes.items i ≡ Some result.now }
    {
        &self.notes[i as usize]
    }

    /// The number of the command at which the node failed, if it did.
    pub fn failed(&self) -> Option<u32>
        ensures { result ≡ self.now.failed }
    {
        self.failed
    }
}
