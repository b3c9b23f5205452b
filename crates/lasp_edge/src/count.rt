//! The count of faults.
ghost use Rattle.std.specs.Prelude.{◌≡◌, ◌≤◌};
ghost use Rattle.lasp_edge.specs.Prelude.{counted};

/// Counts one more fault, up to the last value of the counter.
pub(crate) fn count_fault(faults: &mut u64)
    ensures counted { faults.new ≡ counted faults.old }
    ensures later { faults.old ≤ faults.new }
{
    *faults = faults.saturating_add(1);
}
