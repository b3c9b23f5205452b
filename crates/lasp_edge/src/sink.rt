//! Where bytes are written to.
ghost use Rattle.std.specs.Prelude.{◌≡◌, ℕ, ◌≤◌, List, Option, OnOk, OnErr};
ghost use Rattle.model_values.specs.Faults.{Rose};
ghost use Rattle.model_values.specs.Told.{Appends, AppendsPrefix};

use crate::error::Failed;

/// Something that bytes are appended to. The count of its faults never falls.
pub trait Sink {
    // all bytes that were written so far, where they are told
    ghost written: { Self → Option (List ℕ) };

    // how often a write has failed
    ghost faults: { Self → ℕ };

    /// Appends the bytes, all of them or, where it fails, some first ones.
    fn put(&mut self, bytes: &[u8]) -> Result<(), Failed>
        ensures later { faults self.old ≤ faults self.new }
        ensures ok { OnOk result (Appends (written self.old) bytes.now (written self.new)) }
        ensures part { OnErr result (AppendsPrefix (written self.old) bytes.now (written self.new)) }
        ensures failed { OnErr result (Rose (faults self.old) (faults self.new)) };
}
