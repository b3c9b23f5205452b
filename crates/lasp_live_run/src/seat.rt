//! A node at its desk: its feeder, the ends of its mailboxes, and what it tells when it was fed.

ghost use Rattle.std.specs.Prelude.{◌≡◌};
ghost use Rattle.std.specs.Arc.{arc_value};
ghost use Rattle.lasp_live.specs.Steady.{setting};

use crate::serve::Duty;
use lasp_graph::Graph;
use lasp_live::{Diary, Feeder, Mail, Signal, feed_node};
use lasp_mail::{Inlet, Mailbox, Outlet};
use lasp_script::Script;
use std::alloc::Global;
use std::sync::{Arc, Wait};

/// A node that is to be fed, or was.
#[derive(Drop)]
pub(crate) struct Seat<F> {
    pub(crate) me: u8,
    pub(crate) feeder: F,
    pub(crate) outs: Vec<Outlet<Mail>>,
    pub(crate) ins: Vec<Inlet<Mail>>,
    /// What it tells; none before it was fed, and where memory was wanting.
    pub(crate) diary: Option<Diary>,
}

/// What all nodes share.
#[derive(Drop)]
pub(crate) struct Office<'a, R> {
    pub(crate) rt: &'a R,
    pub(crate) alloc: Global,
    pub(crate) graph: &'a Arc<Graph>,
    pub(crate) script: &'a Arc<Script>,
    pub(crate) boxes: &'a [Mailbox<Mail>],
    pub(crate) signal: &'a Signal,
}

impl<R: Wait, F: Feeder + Drop> Duty<Office<'_, R>> for Seat<F> {
    ghost use Rattle.lasp_live_run.specs.Seat.{SeatView, IsReady, IsServed};
    ghost use Rattle.std.specs.Arc.{arc_value};
    ghost use Rattle.lasp_live.specs.Steady.{setting};

    ghost View = { SeatView F.Place };

    ghost view = { λ s. record { me = s.me; place = F.place s.feeder; frame = F.frame s.feeder; seen = F.seen s.feeder; outs = s.outs.items; ins = s.ins.items; diary = s.diary } };

    ghost ready = { λ office v. IsReady (setting (arc_value office.graph.now) (arc_value office.script.now) v.me) office.boxes.now v };

    ghost served = { λ office v w. IsServed (setting (arc_value office.graph.now) (arc_value office.script.now) v.me) office.boxes.now v w };

    fn serve(&mut self, office: &Office<'_, R>) {
        let fed = feed_node(
            office.rt,
            office.alloc,
            &mut self.feeder,
            self.me,
            office.graph,
            office.script,
            office.boxes,
            &mut self.outs,
            &mut self.ins,
            office.signal,
        );
        self.diary = fed.ok();
    }
}
