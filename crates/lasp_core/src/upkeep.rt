//! What makes later calls cheap and changes nothing that is seen.

ghost use Rattle.std.specs.Prelude.{◌≡◌};

use crate::read::ReadNo;
use lasp_replica::Replica;
use lasp_state::Threshold;

/// Whether a threshold asks for rows of values.
fn asks_values(threshold: &Threshold) -> bool {
    matches!(threshold, Threshold::Added(_) | Threshold::Removed(_))
}

/// Sees that the values for which a read of a variable waits are found without a pass, where nobody shares its state. It costs a look-up for each row that came since the last call.
pub(crate) fn ready_read(replica: &mut Replica, var: u8, threshold: &Threshold)
    ensures { replica.new ≡ replica.old }
{
    if asks_values(threshold) {
        replica.index_rows(var);
    }
}

/// The same for all parked reads.
pub(crate) fn ready_reads(replica: &mut Replica, parked: &[ReadNo])
    ensures { replica.new ≡ replica.old }
{
    let mut last = None;
    for read in parked {
        if last != Some(read.var) && asks_values(&read.threshold) {
            replica.index_rows(read.var);
            last = Some(read.var);
        }
    }
}
