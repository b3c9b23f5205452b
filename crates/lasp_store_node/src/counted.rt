//! Counts that a node has counted at least.

ghost use Rattle.std.specs.Prelude.{◌≡◌, ℕ, List, IfSome, length};
ghost use Rattle.model_states.specs.Counts.{AreCountsAtMost};

use lasp_wire::Counts;
use std::alloc::Global;

/// Raises each count to the other one where that is larger.
fn raise(known: &mut Counts, counts: &Counts)
    requires { length known.old ≡ length counts.now }
    ensures { (most : List ℕ) → AreCountsAtMost known.old most → AreCountsAtMost counts.now most → AreCountsAtMost known.new most }
{
    for i in 0..known.len() {
        let count = known.at(i).max(counts.at(i));
        known.set(i, count);
    }
}

/// What is counted where these counts are and those of a message. Where memory is short, it is what was known before.
pub(crate) fn joined(known: Option<Counts>, alloc: Global, counts: &Counts) -> Option<Counts>
    ensures { (most : List ℕ) → IfSome known (λ before. AreCountsAtMost before most) → AreCountsAtMost counts.now most → IfSome result (λ after. AreCountsAtMost after most) }
{
    match known {
        Some(mut known) => {
            if known.len() == counts.len() {
                raise(&mut known, counts);
            }
            Some(known)
        }
        None => match Counts::from_slice(alloc, counts.as_slice()) {
            Ok(copy) => Some(copy),
            Err(_) => None,
        },
    }
}
