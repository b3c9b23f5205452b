//! Lists of states, as the sources of two replicas: what holds of them by the laws alone, for each lattice.

ghost use Rattle.std.specs.Prelude.{◌≡◌, ◌≢◌, ◌↔◌, IsTrue, IfOk, OnOk, OnErr};
ghost use Rattle.lasp_value.specs.Places.{joined_places, AreRelated};

use super::lattice::Lattice;
use std::alloc::AllocError;

/// Joins a list of states into another one, place by place, and tells whether a state grew.
/// After a failure some states may have grown; the same call repeated then gives what it would have given.
pub fn join_all<L: Lattice>(into: &mut [L], others: &[L]) -> Result<bool, AllocError>
    requires { AreRelated L.same_shape into.old others.now }
    ensures ok { OnOk result (into.new ≡ joined_places L.join into.old others.now) }
    ensures grew { IfOk result (λ grew. IsTrue grew ↔ (into.new ≢ into.old)) }
    ensures err { OnErr result (joined_places L.join into.new others.now ≡ joined_places L.join into.old others.now) }
{
    let mut grew = false;
    for i in 0..others.len() {
        let other = &others[i];
        other.known();
        into[i].known();
        if into[i].join_in(other)? {
            grew = true;
        }
    }
    Ok(grew)
}
