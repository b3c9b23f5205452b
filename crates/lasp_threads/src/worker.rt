//! A worker with a hand at every store.

ghost use Rattle.std.specs.Prelude.{◌≡◌};
ghost use Rattle.lasp_threads.specs.Spots.{spots_of};

use crate::shared::Shared;
use crate::turns::Turns;
use lasp_fns::{Library, StepLib};
use lasp_store::Seated;
use lasp_workers::{Gate, Replicas, work};
use std::alloc::Global;
use std::sync::Wait;

/// What may work on a thread of its own, with tools that all workers share.
pub trait Works<T>: Drop {
    // what it is made of, which no work changes
    ghost Place: { Type 0 };

    ghost place: { Self → Place };

    /// Works at each call until that stretch has ended and nothing is left to do, and ends with the run.
    fn work(&mut self, tools: &T, shared: &Shared)
        ensures { place self.new ≡ place self.old };
}

/// A worker: its number, counted from 1, its hands, each seated at the store of a node, and what it works with.
#[derive(Drop)]
pub struct Worker<'a, R, G> {
    pub(crate) rt: &'a R,
    pub(crate) alloc: Global,
    pub(crate) gate: &'a G,
    pub(crate) number: u32,
    pub(crate) replicas: Replicas<Seated<'a, R>>,
}

impl<R: Wait, G: Gate> Works<Library> for Worker<'_, R, G> {
    ghost use Rattle.std.specs.Prelude.{List};
    ghost use Rattle.lasp_threads.specs.Spots.{Spot, spots_of};

    ghost Place = { List Spot };

    ghost place = { λ w. spots_of w.replicas };

    fn work(&mut self, lib: &Library, shared: &Shared) {
        if !shared.calls.enter() {
            return;
        }
        let mut last = 0;
        for _ in self.rt.forever() {
            match shared.calls.next(self.rt, last) {
                None => return,
                Some(number) => last = number,
            }
            self.work_once(lib, shared);
            shared.calls.answer();
        }
    }
}

impl<R: Wait, G: Gate> Worker<'_, R, G> {
    /// Works until the stretch has ended and nothing is left to do.
    fn work_once(&mut self, lib: &Library, shared: &Shared)
        ensures { spots_of self.new.replicas ≡ spots_of self.old.replicas }
    {
        let mut steps = StepLib::new(lib);
        let turns = Turns {
            gate: self.gate,
            visits: &shared.visits,
            worth: &shared.worth,
        };
        // what it leaves undone for want of memory the next point does
        let _ = work(
            self.rt,
            self.alloc,
            self.number,
            &mut self.replicas,
            &mut steps,
            &turns,
            &shared.more,
        );
    }
}
