//! The names of variables, marks and library functions.

ghost use Rattle.std.specs.Prelude.{◌≡◌, ◌<◌, ◌↔◌, IfOk, IfSome, IsNone, IsTrue, length, slice_get, Some, false};
ghost use Rattle.std.specs.List.{list_all};
ghost use Rattle.model_values.specs.Name.{is_name, is_name_byte};

use std::alloc::{AllocError, Global};
use std::marker::Model;

/// A name: 1 to 32 characters, a small letter first, then small letters, digits and `_`. It is seen as the list of its bytes.
#[derive(Drop)]
pub struct Name {
    text: String,
}

impl Model for Name {
    ghost use Rattle.std.specs.Prelude.{List, ℕ, IsTrue, string_bytes};
    ghost use Rattle.model_values.specs.Name.{is_name};

    ghost Value = { List ℕ };

    ghost view = { λ a. string_bytes a.text };

    ghost invariant = { λ a. IsTrue (is_name (string_bytes a.text)) };
}

impl Name {
    /// The name that a text spells, or None where the text isn't of a name's shape.
    pub fn of(alloc: Global, s: &str) -> Result<Option<Name>, AllocError>
        ensures some { IfOk result (λ name. IfSome name (λ n. n ≡ s.now)) }
        ensures none { IfOk result (λ name. IsNone name ↔ is_name s.now ≡ false) }
    {
        if !Name::is_shape(s) {
            return Ok(None);
        }
        Ok(Some(Name {
            text: String::from_str(alloc, s)?,
        }))
    }

    /// Whether a text is of a name's shape. It takes no memory.
    pub fn is_shape(s: &str) -> bool
        ensures { result ≡ is_name s.now }
    {
        is_name_shape(s.as_bytes())
    }

    /// The characters.
    pub fn as_str(&self) -> &str
        ensures exact { result.now ≡ self.now }
        ensures shape { IsTrue (is_name self.now) }
    {
        self.text.as_str()
    }

    /// An equal name.
    pub fn try_clone(&self) -> Result<Name, AllocError>
        ensures { IfOk result (λ n. n ≡ self.now) }
    {
        Ok(Name {
            text: self.text.clone()?,
        })
    }

    /// The number of characters, 1 to 32.
    pub fn len(&self) -> u64
        ensures { result ≡ length self.now }
    {
        self.text.len() as u64
    }

    /// The byte at a place, counted from 0.
    pub fn at(&self, i: u64) -> u8
        requires { i < length self.now }
        ensures { slice_get self.now i ≡ Some result }
    {
        self.text.as_bytes()[i as usize]
    }
}

fn is_name_shape(bytes: &[u8]) -> bool
    ensures { result ≡ is_name bytes.now }
{
    if bytes.is_empty() || bytes.len() > 32 {
        return false;
    }
    bytes[0].is_ascii_lowercase() && are_inner(bytes)
}

fn are_inner(bytes: &[u8]) -> bool
    ensures { result ≡ list_all is_name_byte bytes.now }
{
    bytes.iter().all(|b| is_inner(*b))
}

fn is_inner(b: u8) -> bool
    ensures { result ≡ is_name_byte b }
{
    b.is_ascii_lowercase() || b.is_ascii_digit() || b == b'_'
}
