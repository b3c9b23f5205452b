//! Files in memory, some of whose reads fail.
ghost use Rattle.std.specs.Prelude.{◌≡◌, ℕ, ◌<◌, ◌≤◌, ◌↔◌, ◌∷◌, ◌++◌, List, [], Some, Bool, if◌then◌else◌, not, length, IfOk, OnOk, OnErr, IsTrue, IsSomeAnd};
ghost use Rattle.lasp_edge.specs.Prelude.{bytes_eq, Rose, counted, Sees, file_at, is_set};
ghost use Rattle.lasp_edge.specs.MemFiles.{next_fails};

use crate::count::count_fault;
use crate::error::Fetch;
use crate::files::Files;
use crate::shelf::{Shelf, copied_within};
use std::alloc::{AllocError, Global};
use std::marker::Model;

/// Files in memory, some of whose reads are set to fail. One counter is the count of faults of
/// each name.
#[derive(Drop)]
pub struct MemFiles {
    shelf: Shelf,
    failing: Vec<u64>,
    calls: u64,
    faults: u64,
}

impl Model for MemFiles {
    ghost use Rattle.lasp_edge.specs.MemFiles.{Drive};

    ghost Value = { Drive };

    ghost view = { λ a. record { files = a.shelf; failing = a.failing.items; calls = a.calls; faults = a.faults } };
}

impl MemFiles {
    /// No files.
    pub fn new(alloc: Global) -> MemFiles
        ensures { result ≡ record { files = []; failing = []; calls = 0; faults = 0 } }
    {
        MemFiles {
            shelf: Shelf::new(alloc),
            failing: Vec::new(alloc),
            calls: 0,
            faults: 0,
        }
    }

    /// Puts a file in. A name that is there gets these bytes instead.
    pub fn put_file(&mut self, name: &str, bytes: &[u8]) -> Result<(), AllocError>
        ensures ok { OnOk result ((n : List ℕ) → file_at self.new.files n ≡ (if bytes_eq name.now n then Some bytes.now else file_at self.old.files n)) }
        ensures same { self.new ≡ record self.old { files = self.new.files } }
        ensures err { OnErr result (self.new ≡ self.old) }
    {
        self.shelf.put_file(name, bytes)
    }

    /// Lets the read of this number fail, counted from 0.
    pub fn fail_at(&mut self, call: u64) -> Result<(), AllocError>
        ensures ok { OnOk result (self.new ≡ record self.old { failing = self.old.failing ++ call ∷ [] }) }
        ensures err { OnErr result (self.new ≡ self.old) }
    {
        self.failing.push(call)?;
        Ok(())
    }

    // Counts the read, and says whether it is set to fail.
    fn begin(&mut self) -> bool
        ensures set { result ≡ is_set self.old.failing self.old.calls }
        ensures after { self.new ≡ record self.old { calls = counted self.old.calls } }
    {
        let call = self.calls;
        self.calls = call.saturating_add(1);
        self.failing.contains(&call)
    }
}

impl Files for MemFiles {
    ghost use Rattle.std.specs.Prelude.{List};
    ghost use Rattle.lasp_edge.specs.Shelf.{file_at};

    ghost content = { λ drive name. file_at drive.files name };

    ghost faults = { λ drive _. drive.faults };

    /// The read fails where it is set to, or where there is no file of this name.
    fn fetch(&mut self, alloc: Global, name: &str, limit: u64) -> Result<Vec<u8>, Fetch>
        ensures same { (n : List ℕ) → file_at self.new.files n ≡ file_at self.old.files n }
        ensures later { (n : List ℕ) → self.old.faults ≤ self.new.faults }
        ensures ok { IfOk result (λ bytes. Sees (file_at self.old.files name.now) bytes.items) }
        ensures within { IfOk result (λ bytes. length bytes.items ≤ limit) }
        ensures failed { result ≡ Err Fetch.Failed → Rose self.old.faults self.new.faults }
        ensures too_long { result ≡ Err Fetch.TooLong →
            (bytes : List ℕ) × Sees (file_at self.old.files name.now) bytes × (limit < length bytes) }

        // What this type says beyond its trait.
        ensures after { self.new ≡ record self.old {
          calls = counted self.old.calls;
          faults = (if next_fails self.old name.now then counted self.old.faults else self.old.faults);
        } }
        ensures fails { (result ≡ Err Fetch.Failed) ↔ IsTrue (next_fails self.old name.now) }
        ensures long { (result ≡ Err Fetch.TooLong) ↔
            (IsTrue (not (next_fails self.old name.now)) × IsSomeAnd (file_at self.old.files name.now) (λ bytes. limit < length bytes)) }
        ensures told { IfOk result (λ bytes. file_at self.old.files name.now ≡ Some bytes.items) }
    {
        let is_set = self.begin();
        match self.shelf.file(name) {
            Some(bytes) if !is_set => copied_within(alloc, bytes, limit),
            _ => {
                count_fault(&mut self.faults);
                Err(Fetch::Failed)
            }
        }
    }
}
