//! One turn: the core is taken out for one call, and given back with what the call added.

ghost use Rattle.std.specs.Prelude.{◌≡◌, false, IfSome, IfNone};
ghost use Rattle.lasp_store.specs.Prelude.{after_miss, HasBegun, HasTried, MayEnd, HasGiven};

use crate::kept::KeptCore;
use crate::store::{Hand, Store};
use lasp_core::Core;
use lasp_histlock::Held;
use std::snapshot::Snapshot;
use std::sync::Wait;

impl Store {
    /// Takes the core out. It may wait for others.
    pub(crate) fn begin<R: Wait>(&self, rt: &R, h: &mut Hand) -> Box<Core>
        requires lock { h.old.lock ≡ self.now }
        requires idle { h.old.turn ≡ false }
        ensures { HasBegun self.now h.old h.new result.value }
    {
        let Held { value, taken: _ } = self.lock.take(rt, h);
        let KeptCore { core } = value;
        core.recall();
        core
    }

    /// Tries once to take the core out. It never waits.
    pub(crate) fn try_begin(&self, h: &mut Hand) -> Option<Box<Core>>
        requires lock { h.old.lock ≡ self.now }
        requires idle { h.old.turn ≡ false }
        ensures none { IfNone result (h.new ≡ after_miss h.old) }
        ensures some { IfSome result (λ core. HasTried self.now h.old h.new core.value) }
    {
        let Held { value, taken: _ } = self.lock.try_take(h)?;
        let KeptCore { core } = value;
        core.recall();
        Some(core)
    }

    /// Gives the core back, and ends the turn.
    pub(crate) fn end(&self, h: &mut Hand, core: Box<Core>)
        requires { MayEnd self.now h.old core.value }
        ensures { HasGiven core.value h.old h.new }
    {
        let value = KeptCore { core };
        let taken = Snapshot::of(&value);
        self.lock.give(h, Held { value, taken });
    }
}
