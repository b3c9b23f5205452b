//! The loop that reads a file.
ghost use Rattle.std.specs.Prelude.{◌≡◌, ◌≤◌, if◌then◌else◌, OnOk};
ghost use Rattle.lasp_edge.specs.Prelude.{IsAtEnd, counted, TakesUpTo, is_failed};

use crate::count::count_fault;
use crate::error::Fetch;
use std::alloc::Global;
use std::io::Read;

// How many bytes one read may give at most.
const PIECE: usize = 8192;

/// Reads to the end, of at most `limit` bytes; it takes at most one byte more. A fault is counted
/// where a read fails.
pub fn read_up_to<R: Read>(
    alloc: Global,
    r: &mut R,
    limit: u64,
    faults: &mut u64,
) -> Result<Vec<u8>, Fetch>
    ensures taken { TakesUpTo limit (R.remaining r.old) (R.remaining r.new) result }
    ensures end { OnOk result (IsAtEnd (R.remaining r.new)) }
    ensures counted { faults.new ≡ (if is_failed result then counted faults.old else faults.old) }
    ensures later { faults.old ≤ faults.new }
{
    let mut bytes = Vec::new(alloc);
    let mut piece = [0u8; PIECE];
    while bytes.len() as u64 <= limit {
        let room = (limit - bytes.len() as u64).min(PIECE as u64 - 1) as usize + 1;
        match r.read(&mut piece[..room]) {
            Ok(0) => return Ok(bytes),
            Ok(n) => bytes.extend_from_slice(&piece[..n])?,
            Err(_) => {
                count_fault(faults);
                return Err(Fetch::Failed);
            }
        }
    }
    Err(Fetch::TooLong)
}
