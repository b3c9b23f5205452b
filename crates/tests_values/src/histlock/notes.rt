//! A value for the tests: notes on one topic, each with who wrote it.
ghost use Rattle.std.specs.Prelude.{◌≡◌, ◌++◌, ◌∷◌, [], OnOk, OnErr};

use lasp_histlock::Kept;
use std::alloc::{AllocError, Global};

#[derive(Drop, Clone, Copy)]
pub struct Note {
    pub by: u64,
    pub text: u32,
}

#[derive(Drop)]
pub struct Notes {
    pub topic: u8,
    pub entries: Vec<Note>,
}

impl Kept for Notes {
    type Item = Note;

    type Frame = u8;

    ghost list = { λ notes. notes.entries.items };

    ghost frame = { λ notes. notes.topic };

    ghost names = { λ note. note.by };

    ghost may = { λ n note. note.by ≡ n };

    fn entries(&self) -> u64 {
        self.entries.len() as u64
    }

    ghost named = { λ n note by. by };
}

impl Notes {
    pub fn about(alloc: Global, topic: u8) -> Notes
        ensures { (result.entries.items ≡ []) × (result.topic ≡ topic) }
    {
        Notes {
            topic,
            entries: Vec::new(alloc),
        }
    }

    pub fn write(&mut self, note: Note) -> Result<(), AllocError>
        ensures ok { OnOk result (self.new.entries.items ≡ self.old.entries.items ++ note ∷ []) }
        ensures err { OnErr result (self.new.entries.items ≡ self.old.entries.items) }
        ensures topic { self.new.topic ≡ self.old.topic }
    {
        self.entries.push(note)?;
        Ok(())
    }
}
