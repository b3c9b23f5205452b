//! A text, read in usual spellings and as JSON.

use lasp_spelling::usual_tree;
use serde_json::Value as Json;
use std::alloc::{AllocError, Global};

/// How a text is read in usual spellings.
#[derive(Clone, Copy, PartialEq, Eq, Debug)]
pub(crate) enum Reading {
    /// It isn't.
    Left,
    /// As JSON reads it.
    Taken,
    /// In another way than JSON reads it.
    Wrong,
}

/// How a text is read in usual spellings.
pub(crate) fn reading_of(alloc: Global, bytes: &[u8]) -> Result<Reading, AllocError> {
    let Some(tree) = usual_tree(alloc, bytes) else {
        return Ok(Reading::Left);
    };
    let Ok(json) = Json::from_slice(alloc, bytes) else {
        return Ok(Reading::Wrong);
    };
    if tree.to_string(alloc)?.as_str() == json.to_string(alloc)?.as_str() {
        Ok(Reading::Taken)
    } else {
        Ok(Reading::Wrong)
    }
}

/// How many texts were read so.
#[derive(Clone, Copy, PartialEq, Eq, Debug)]
pub(crate) struct Tally {
    pub taken: u32,
    pub wrong: u32,
}

impl Tally {
    pub fn new() -> Tally {
        Tally { taken: 0, wrong: 0 }
    }

    /// Reads one text more.
    pub fn read(&mut self, alloc: Global, bytes: &[u8]) -> Result<(), AllocError> {
        match reading_of(alloc, bytes)? {
            Reading::Left => (),
            Reading::Taken => self.taken = self.taken.wrapping_add(1),
            Reading::Wrong => self.wrong = self.wrong.wrapping_add(1),
        }
        Ok(())
    }
}
