//! Files in memory, by name: what `MemFiles` and `SureFiles` keep.
ghost use Rattle.std.specs.Prelude.{◌≡◌, ℕ, ◌<◌, ◌≤◌, ◌≢◌, ◌↔◌, List, [], Some, if◌then◌else◌, length, IfOk, OnOk, OnErr, option_map};
ghost use Rattle.lasp_edge.specs.Prelude.{bytes_eq, file_at};

use crate::error::Fetch;
use std::alloc::{AllocError, Global};
use std::collections::BTreeMap;
use std::marker::Model;

/// Files by name, and the allocator that they take their memory from.
#[derive(Drop)]
pub(crate) struct Shelf {
    files: BTreeMap<String, Vec<u8>>,
    alloc: Global,
}

impl Model for Shelf {
    ghost use Rattle.std.specs.Prelude.{List, map, string_bytes};
    ghost use Rattle.lasp_edge.specs.Shelf.{NamedBytes};

    ghost Value = { List NamedBytes };

    ghost view = { λ a. map (λ e. (string_bytes e.0, e.1.items)) a.files.entries };
}

impl Shelf {
    pub(crate) fn new(alloc: Global) -> Shelf
        ensures { result ≡ [] }
    {
        Shelf {
            files: BTreeMap::new(alloc),
            alloc,
        }
    }

    /// Puts a file in, in place of one of this name.
    pub(crate) fn put_file(&mut self, name: &str, bytes: &[u8]) -> Result<(), AllocError>
        ensures ok { OnOk result ((n : List ℕ) → file_at self.new n ≡ (if bytes_eq name.now n then Some bytes.now else file_at self.old n)) }
        ensures err { OnErr result (self.new ≡ self.old) }
    {
        let name = String::from_str(self.alloc, name)?;
        let bytes = Vec::from_slice(self.alloc, bytes)?;
        self.files.insert(name, bytes)?;
        Ok(())
    }

    /// The bytes of the file of this name.
    pub(crate) fn file(&self, name: &str) -> Option<&[u8]>
        ensures { option_map (λ bytes. bytes.now) result ≡ file_at self.now name.now }
    {
        match self.files.get(name) {
            Some(bytes) => Some(bytes.as_slice()),
            None => None,
        }
    }
}

/// A copy of these bytes, where there are at most `limit` of them.
pub(crate) fn copied_within(alloc: Global, bytes: &[u8], limit: u64) -> Result<Vec<u8>, Fetch>
    ensures ok { IfOk result (λ copy. copy.items ≡ bytes.now) }
    ensures within { OnOk result (length bytes.now ≤ limit) }
    ensures too_long { (result ≡ Err Fetch.TooLong) ↔ (limit < length bytes.now) }
    ensures sure { result ≢ Err Fetch.Failed }
{
    if bytes.len() as u64 > limit {
        return Err(Fetch::TooLong);
    }
    let copy = Vec::from_slice(alloc, bytes)?;
    Ok(copy)
}
