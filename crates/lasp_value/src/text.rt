//! A text as it stands in values: UTF-8 bytes that are never changed.

ghost use Rattle.std.specs.Prelude.{◌≡◌, ◌<◌, IfOk, length, slice_get, string_bytes, Some};

use std::alloc::{AllocError, Global};
use std::marker::Model;

/// A text, seen as the list of its bytes.
#[derive(Drop)]
pub struct Text {
    text: String,
}

impl Model for Text {
    ghost use Rattle.std.specs.Prelude.{List, ℕ, string_bytes};

    ghost Value = { List ℕ };

    ghost view = { λ a. string_bytes a.text };
}

impl Text {
    /// A text of these characters; one copy of them.
    pub fn of(alloc: Global, s: &str) -> Result<Text, AllocError>
        ensures { IfOk result (λ t. t ≡ s.now) }
    {
        Ok(Text {
            text: String::from_str(alloc, s)?,
        })
    }

    /// Takes a string over as a text, without a copy.
    pub fn from_string(text: String) -> Text
        ensures { result ≡ string_bytes text }
    {
        Text { text }
    }

    /// The characters.
    pub fn as_str(&self) -> &str
        ensures { result.now ≡ self.now }
    {
        self.text.as_str()
    }

    /// An equal text; one copy of the bytes.
    pub fn try_clone(&self) -> Result<Text, AllocError>
        ensures { IfOk result (λ t. t ≡ self.now) }
    {
        Ok(Text {
            text: self.text.clone()?,
        })
    }

    /// The number of bytes.
    pub fn len(&self) -> u64
        ensures { result ≡ length self.now }
    {
        self.text.len() as u64
    }

    /// The byte at a place, counted from 0.
    pub fn at(&self, i: u64) -> u8
        requires { i < length self.now }
        ensures { slice_get self.now i ≡ Some result }
    {
        self.text.as_bytes()[i as usize]
    }
}
