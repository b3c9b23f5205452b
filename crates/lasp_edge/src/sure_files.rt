//! Files in memory whose reads never fail.
ghost use Rattle.std.specs.Prelude.{◌≡◌, ◌≢◌, ℕ, ◌<◌, ◌≤◌, ◌↔◌, List, [], Some, if◌then◌else◌, length, IfOk, OnOk, OnErr, unwrap_or};
ghost use Rattle.lasp_edge.specs.Prelude.{bytes_eq, Rose, Sees, file_at};

use crate::error::Fetch;
use crate::files::Files;
use crate::shelf::{Shelf, copied_within};
use std::alloc::{AllocError, Global};
use std::marker::Model;

/// Files in memory whose reads never fail. A name that isn't there is a file of no bytes.
#[derive(Drop)]
pub struct SureFiles {
    shelf: Shelf,
}

impl Model for SureFiles {
    ghost use Rattle.std.specs.Prelude.{List};
    ghost use Rattle.lasp_edge.specs.Shelf.{NamedBytes};

    ghost Value = { List NamedBytes };

    ghost view = { λ a. a.shelf };
}

impl SureFiles {
    /// No files.
    pub fn new(alloc: Global) -> SureFiles
        ensures { result ≡ [] }
    {
        SureFiles {
            shelf: Shelf::new(alloc),
        }
    }

    /// Puts a file in. A name that is there gets these bytes instead.
    pub fn put_file(&mut self, name: &str, bytes: &[u8]) -> Result<(), AllocError>
        ensures ok { OnOk result ((n : List ℕ) → file_at self.new n ≡ (if bytes_eq name.now n then Some bytes.now else file_at self.old n)) }
        ensures err { OnErr result (self.new ≡ self.old) }
    {
        self.shelf.put_file(name, bytes)
    }
}

impl Files for SureFiles {
    ghost use Rattle.std.specs.Prelude.{List, Some, [], unwrap_or};
    ghost use Rattle.lasp_edge.specs.Shelf.{file_at};

    ghost content = { λ files name. Some (unwrap_or (file_at files name) []) };

    ghost faults = { λ _ _. 0 };

    /// The read never fails.
    fn fetch(&mut self, alloc: Global, name: &str, limit: u64) -> Result<Vec<u8>, Fetch>
        ensures same { (n : List ℕ) → Some (unwrap_or (file_at self.new n) []) ≡ Some (unwrap_or (file_at self.old n) []) }
        ensures later { List ℕ → 0 ≤ 0 }
        ensures ok { IfOk result (λ bytes. Sees (Some (unwrap_or (file_at self.old name.now) [])) bytes.items) }
        ensures within { IfOk result (λ bytes. length bytes.items ≤ limit) }
        ensures failed { result ≡ Err Fetch.Failed → Rose 0 0 }
        ensures too_long { result ≡ Err Fetch.TooLong →
            (bytes : List ℕ) × Sees (Some (unwrap_or (file_at self.old name.now) [])) bytes × (limit < length bytes) }

        // What this type says beyond its trait.
        ensures after { self.new ≡ self.old }
        ensures sure { result ≢ Err Fetch.Failed }
        ensures long { (result ≡ Err Fetch.TooLong) ↔ (limit < length (unwrap_or (file_at self.old name.now) [])) }
    {
        match self.shelf.file(name) {
            Some(bytes) => copied_within(alloc, bytes, limit),
            None => Ok(Vec::new(alloc)),
        }
    }
}
