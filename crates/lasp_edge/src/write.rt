//! The loop that writes output.
ghost use Rattle.std.specs.Prelude.{◌≡◌, ◌≤◌, if◌then◌else◌, OnOk, OnErr, is_err};
ghost use Rattle.lasp_edge.specs.Prelude.{counted, GrowsByPrefix};
ghost use Rattle.std.specs.Io.KnownBytes.{Appends};

use crate::count::count_fault;
use crate::error::Failed;
use std::io::Write;

/// Writes all bytes. A fault is counted where a write fails, or takes none of the bytes.
pub fn write_whole<W: Write>(w: &mut W, bytes: &[u8], faults: &mut u64) -> Result<(), Failed>
    ensures ok { OnOk result (Appends (W.contents w.old) (W.contents w.new) bytes.now) }
    ensures part { OnErr result (GrowsByPrefix (W.contents w.old) (W.contents w.new) bytes.now) }
    ensures counted { faults.new ≡ (if is_err result then counted faults.old else faults.old) }
    ensures later { faults.old ≤ faults.new }
{
    let mut done = 0;
    while done < bytes.len() {
        match w.write(&bytes[done..]) {
            Ok(0) => {
                count_fault(faults);
                return Err(Failed);
            }
            Ok(n) => done += n,
            Err(_) => {
                count_fault(faults);
                return Err(Failed);
            }
        }
    }
    Ok(())
}
