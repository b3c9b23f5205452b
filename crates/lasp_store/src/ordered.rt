//! Order that is kept with what is shared.

ghost use Rattle.std.specs.Prelude.{◌≡◌, [], false};
ghost use Rattle.lasp_store.specs.Prelude.{HadTurn, IsInTurn, HasEnded};

use crate::store::{Hand, Store};
use lasp_core::Core;
use std::sync::Wait;

/// `Core::order_rows` of each variable at whose place `true` stands.
fn order_each(core: &mut Core, vars: &[bool])
    ensures { core.new ≡ core.old }
{
    let mut var = 0u8;
    for is_asked in vars {
        if *is_asked {
            core.order_rows(var);
        }
        var = var.saturating_add(1);
    }
}

impl Store {
    fn end_order(&self, h: &mut Hand, mut core: Box<Core>, vars: &[bool])
        requires turn { IsInTurn self.now h.old core.value }
        ensures { HasEnded [] h.old h.new }
    {
        core.recall();
        order_each(&mut core, vars);
        core.recall();
        self.end(h, core);
    }

    /// `Core::order_rows` of each variable at whose place `true` stands: states that are shared after it keep that order. It may wait for others.
    pub fn order_rows<R: Wait>(&self, rt: &R, h: &mut Hand, vars: &[bool])
        requires lock { h.old.lock ≡ self.now }
        requires idle { h.old.turn ≡ false }
        ensures { HadTurn [] h.old h.new }
    {
        let core = self.begin(rt, h);
        self.end_order(h, core, vars)
    }
}
