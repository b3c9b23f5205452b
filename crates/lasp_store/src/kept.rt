//! The core as its lock keeps it.

ghost use Rattle.std.specs.Prelude.{◌≡◌};

use lasp_core::{Core, KeptEntry, KeptFrame};
use lasp_histlock::Kept;

/// A core on the heap. The lock moves its value a dozen times a turn, so it has a pointer to move, and not all that a core is made of.
#[derive(Drop)]
pub struct KeptCore {
    pub(crate) core: Box<Core>,
}

/// It stands for the journal of its core, as the core itself does.
impl Kept for KeptCore {
    ghost use Rattle.model_journal.specs.Callers.{MayMake};

    type Item = KeptEntry;

    type Frame = KeptFrame;

    ghost list = { λ c. c.core.value.entries };

    ghost frame = { λ c. c.core.value.frame };

    ghost names = { λ e. e.by };

    ghost may = { λ n e. (e.by ≡ n) × MayMake n e.act };

    fn entries(&self) -> u64 {
        self.core.entries()
    }

    ghost named = { λ n e made. made.0 };
}
