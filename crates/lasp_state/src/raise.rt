//! The loops over counts.

ghost use Rattle.std.specs.Prelude.{◌≡◌, ◌≢◌, ◌↔◌, IsTrue, sum};
ghost use Rattle.lasp_state.specs.Prelude.{AreCounts, HaveSameNodes, AreAtMost, larger};

/// Raises each count to the other one where that is larger, and tells whether one rose.
pub(crate) fn raise(counts: &mut [u64], others: &[u64]) -> bool
    requires { HaveSameNodes counts.old others.now }
    ensures joined { counts.new ≡ larger counts.old others.now }
    ensures grew { IsTrue result ↔ (counts.new ≢ counts.old) }
{
    let mut grew = false;
    for i in 0..others.len() {
        if counts[i] < others[i] {
            counts[i] = others[i];
            grew = true;
        }
    }
    grew
}

/// Whether no count is larger than the other one.
pub fn are_at_most(counts: &[u64], others: &[u64]) -> bool
    requires { HaveSameNodes counts.now others.now }
    ensures { IsTrue result ↔ AreAtMost counts.now others.now }
{
    for i in 0..counts.len() {
        if others[i] < counts[i] {
            return false;
        }
    }
    true
}

/// The sum of counts.
pub(crate) fn sum_of(counts: &[u64]) -> u64
    requires { AreCounts counts.now }
    ensures { result ≡ sum counts.now }
{
    let mut total = 0u64;
    for count in counts {
        total += *count;
    }
    total
}
