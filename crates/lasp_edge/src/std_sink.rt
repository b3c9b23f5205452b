//! Real output.
ghost use Rattle.std.specs.Prelude.{◌≡◌, ◌≤◌, if◌then◌else◌, OnOk, OnErr, is_err};
ghost use Rattle.lasp_edge.specs.Prelude.{GrowsByPrefix, Rose, counted, AppendsPrefix, untold};
ghost use Rattle.std.specs.Io.KnownBytes as known;
ghost use Rattle.model_values.specs.Told.{Appends};

use crate::error::Failed;
use crate::sink::Sink;
use crate::write::write_whole;
use std::io::Write;
use std::marker::Model;

/// A real writer, as standard output or standard error. The count of faults stands still at its
/// last value. As a sink it tells nothing of what was written, since a real writer doesn't either.
#[derive(Drop)]
pub struct StdSink<W> {
    writer: W,
    faults: u64,
}

// Its value is the writer and the count of faults.
impl<W> Model for StdSink<W> {
    ghost use Rattle.std.specs.Prelude.{ℕ};

    ghost Value = { W × ℕ };

    ghost view = { λ a. (a.writer, a.faults) };
}

impl<W: Write> StdSink<W> {
    /// Output to this writer.
    pub fn new(writer: W) -> StdSink<W>
        ensures { result ≡ (writer, 0) }
    {
        StdSink { writer, faults: 0 }
    }
}

impl<W: Write> Sink for StdSink<W> {
    ghost use Rattle.model_values.specs.Told.{untold};

    ghost written = { λ _. untold };

    ghost faults = { λ s. s.1 };

    /// A fault is counted where a write fails, or takes none of the bytes.
    fn put(&mut self, bytes: &[u8]) -> Result<(), Failed>
        ensures later { self.old.1 ≤ self.new.1 }
        ensures ok { OnOk result (Appends untold bytes.now untold) }
        ensures part { OnErr result (AppendsPrefix untold bytes.now untold) }
        ensures failed { OnErr result (Rose self.old.1 self.new.1) }

        // What this type says beyond its trait: the bytes go to the writer, where that tells its bytes.
        ensures counted { self.new.1 ≡ (if is_err result then counted self.old.1 else self.old.1) }
        ensures handed_on { OnOk result (known.Appends (W.contents self.old.0) (W.contents self.new.0) bytes.now) }
        ensures handed_part { OnErr result (GrowsByPrefix (W.contents self.old.0) (W.contents self.new.0) bytes.now) }
    {
        write_whole(&mut self.writer, bytes, &mut self.faults)
    }
}
