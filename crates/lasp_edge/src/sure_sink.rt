//! Output that is thrown away.
ghost use Rattle.std.specs.Prelude.{◌≡◌, ◌≤◌, OnOk, OnErr, Ok};
ghost use Rattle.lasp_edge.specs.Prelude.{Rose, AppendsPrefix, untold};
ghost use Rattle.model_values.specs.Told.{Appends};

use crate::error::Failed;
use crate::sink::Sink;

/// Takes all bytes and keeps none. A write never fails.
#[derive(Clone, Copy, Debug)]
pub struct SureSink;

impl Sink for SureSink {
    ghost use Rattle.model_values.specs.Told.{untold};

    ghost written = { λ _. untold };

    ghost faults = { λ _. 0 };

    /// The write never fails.
    fn put(&mut self, bytes: &[u8]) -> Result<(), Failed>
        ensures later { 0 ≤ 0 }
        ensures ok { OnOk result (Appends untold bytes.now untold) }
        ensures part { OnErr result (AppendsPrefix untold bytes.now untold) }
        ensures failed { OnErr result (Rose 0 0) }

        // What this type says beyond its trait.
        ensures sure { result ≡ Ok tt }
    {
        Ok(())
    }
}
