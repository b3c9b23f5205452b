//! Real files.
ghost use Rattle.std.specs.Prelude.{◌≡◌, ℕ, ◌<◌, ◌≤◌, List, if◌then◌else◌, length, IfOk};
ghost use Rattle.lasp_edge.specs.Prelude.{Rose, counted, Sees, untold, is_failed};

use crate::count::count_fault;
use crate::error::Fetch;
use crate::files::Files;
use crate::read::read_up_to;
use std::alloc::Global;
use std::marker::Model;
use std::{fs, rt};

/// Real files, by their paths. One counter, which stands still at its last value, is the count of
/// faults of each name. Nothing is told of contents.
#[derive(Drop)]
pub struct DirFiles<'a, R> {
    rt: &'a R,
    faults: u64,
}

// Its value is the count of faults.
impl<'a, R> Model for DirFiles<'a, R> {
    ghost use Rattle.std.specs.Prelude.{ℕ};

    ghost Value = { ℕ };

    ghost view = { λ a. a.faults };
}

impl<'a, R: rt::Files> DirFiles<'a, R> {
    /// The files that this runtime reaches.
    pub fn new(rt: &'a R) -> DirFiles<'a, R>
        ensures { result ≡ 0 }
    {
        DirFiles { rt, faults: 0 }
    }
}

impl<'a, R: rt::Files> Files for DirFiles<'a, R> {
    ghost use Rattle.model_values.specs.Told.{untold};

    ghost content = { λ _ _. untold };

    ghost faults = { λ count _. count };

    /// A fault is counted where opening the file or a read of it fails.
    fn fetch(&mut self, alloc: Global, name: &str, limit: u64) -> Result<Vec<u8>, Fetch>
        ensures same { List ℕ → untold ≡ untold }
        ensures later { List ℕ → self.old ≤ self.new }
        ensures ok { IfOk result (λ bytes. Sees untold bytes.items) }
        ensures within { IfOk result (λ bytes. length bytes.items ≤ limit) }
        ensures failed { result ≡ Err Fetch.Failed → Rose self.old self.new }
        ensures too_long { result ≡ Err Fetch.TooLong → (bytes : List ℕ) × Sees untold bytes × (limit < length bytes) }

        // What this type says beyond its trait.
        ensures counted { self.new ≡ (if is_failed result then counted self.old else self.old) }
    {
        match fs::open(self.rt, name) {
            Ok(mut file) => read_up_to(alloc, &mut file, limit, &mut self.faults),
            Err(_) => {
                count_fault(&mut self.faults);
                Err(Fetch::Failed)
            }
        }
    }
}
