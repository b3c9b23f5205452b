//! The loops over counts.

ghost use Rattle.std.specs.Prelude.{◌≡◌, ◌↔◌, IsTrue, length};
ghost use Rattle.lasp_dots.specs.Prelude.{AreCountsAtMost, larger};

/// Raises each count to the other one where that is larger.
pub(crate) fn raise(counts: &mut Vec<u64>, others: &[u64])
    requires { length counts.old.items ≡ length others.now }
    ensures { counts.new.items ≡ larger counts.old.items others.now }
{
    for i in 0..others.len() {
        counts[i] = counts[i].max(others[i]);
    }
}

/// Whether no count is larger than the other one.
pub(crate) fn are_at_most(counts: &[u64], others: &[u64]) -> bool
    requires { length counts.now ≡ length others.now }
    ensures { IsTrue result ↔ AreCountsAtMost counts.now others.now }
{
    for i in 0..counts.len() {
        if others[i] < counts[i] {
            return false;
        }
    }
    true
}
