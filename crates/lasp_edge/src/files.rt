//! Where files are read from.
ghost use Rattle.std.specs.Prelude.{◌≡◌, ℕ, ◌<◌, ◌≤◌, List, Option, length, IfOk};
ghost use Rattle.model_values.specs.Faults.{Rose};
ghost use Rattle.model_values.specs.Told.{Sees};

use crate::error::Fetch;
use std::alloc::Global;

/// Files by name. Their contents, where an implementation tells them, stay as they are; the count
/// of each name's faults never falls.
pub trait Files {
    // the contents of the file of this name, where they are told
    ghost content: { Self → List ℕ → Option (List ℕ) };

    // how often reading the file of this name has failed
    ghost faults: { Self → List ℕ → ℕ };

    /// Reads the whole file, of at most `limit` bytes.
    fn fetch(&mut self, alloc: Global, name: &str, limit: u64) -> Result<Vec<u8>, Fetch>
        ensures same { (n : List ℕ) → content self.new n ≡ content self.old n }
        ensures later { (n : List ℕ) → faults self.old n ≤ faults self.new n }
        ensures ok { IfOk result (λ bytes. Sees (content self.old name.now) bytes.items) }
        ensures within { IfOk result (λ bytes. length bytes.items ≤ limit) }
        ensures failed { result ≡ Err Fetch.Failed → Rose (faults self.old name.now) (faults self.new name.now) }
        ensures too_long { result ≡ Err Fetch.TooLong →
            (bytes : List ℕ) × Sees (content self.old name.now) bytes × (limit < length bytes) };
}
