//! What a shelf tells.

ghost use Rattle.std.specs.Prelude.{◌≡◌};

use super::front::Front;
use std::marker::Model;

/// What a shelf had published when it told this. It has no bytes but a count, and may go to other threads. Contracts see it as the shelf was seen.
#[derive(Drop)]
pub struct Told {
    pub(crate) front: Front,
}

impl Model for Told {
    ghost use Rattle.lasp_snap.specs.Log.{IsTold};
    ghost use Rattle.lasp_snap.specs.Views.{ShelfView, coded_shelf, told_view};

    ghost Value = { ShelfView };

    ghost coded = { coded_shelf };

    ghost view = { λ t. told_view t.front };

    ghost invariant = { λ t. IsTold t.front.log };
}

impl Told {
    /// A copy. It takes no memory.
    pub fn again(&self) -> Told
        ensures { result ≡ self.now }
    {
        Told {
            front: self.front.again(),
        }
    }
}
