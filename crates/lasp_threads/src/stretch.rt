//! A run, stretch by stretch, with workers beside each stretch.

ghost use Rattle.std.specs.Prelude.{◌≡◌, map};
ghost use Rattle.lasp_graph.specs.Library.{library_of};
ghost use Rattle.lasp_drive.specs.Driver.{seen};
ghost use Rattle.lasp_drive.specs.Play.{MayPlay, Plays};

use crate::aside::work_beside;
use crate::shared::Shared;
use crate::worker::Works;
use lasp_drive::{Beside, Driver, Halt, Node, run_through};
use lasp_fns::Library;
use lasp_graph::Graph;
use lasp_script::Script;
use std::alloc::Global;
use std::sync::Wait;
use std::sync::atomic::Ordering;
use std::thread::Threads;

/// How many changes a stretch has at least beside which workers work. Of a shorter one they do behind it what it left.
const MANY: u32 = 4_096;

/// The workers, as the run's thread has them.
#[derive(Drop)]
struct Crew<'a, R> {
    rt: &'a R,
    shared: &'a Shared,
    many: u64,
}

impl<R: Wait> Crew<'_, R> {
    /// Calls the workers.
    fn call(&self, goes_on: bool) {
        self.shared.more.store(goes_on, Ordering::SeqCst);
        self.shared.calls.call(self.rt, self.many);
    }

    /// Tells the workers that the stretch has ended, and waits until they are through.
    fn wait(&self) {
        self.shared.more.store(false, Ordering::SeqCst);
        self.shared.calls.wait(self.rt);
    }

    /// Calls them to what a short stretch has left, if that is worth while, and waits until they are through.
    fn finish(&self) {
        if self.shared.worth.is_due() {
            self.call(false);
            self.wait();
            self.shared.worth.note();
        }
    }
}

impl<R: Wait> Beside for Crew<'_, R> {
    ghost Place = { Unit {0} };

    ghost place = { λ _. tt };

    fn most_counted(&self) -> u32 {
        MANY
    }

    fn learn(&mut self, graph: &Graph) {
        self.shared.visits.learn(graph);
    }

    fn go_beside<A, F: FnOnce() -> A>(&mut self, changes: u32, stretch: F) -> A
        requires { F.pre stretch }
        ensures { F.post stretch result }
    {
        if changes < MANY {
            let answer = stretch();
            self.finish();
            answer
        } else {
            self.call(true);
            let answer = stretch();
            self.wait();
            answer
        }
    }
}

/// Does the commands of a script in order, while each worker waits for calls to its stretches, and settles every node at the end. Workers and driver come back also where the run stops.
pub(crate) fn run_beside<N: Node, R: Threads + Wait, T: Sync, W: Works<T> + Send>(
    rt: &R,
    workers: Vec<W>,
    tools: &T,
    driver: Driver<N>,
    alloc: Global,
    lib: &Library,
    script: &Script,
) -> (Vec<W>, Driver<N>, Result<(), Halt>)
    requires may { MayPlay (library_of lib.now) (seen N.view N.read driver) script.now.commands }
    ensures plays { Plays N.view N.read N.place driver script.now.commands result.2 result.1 }
    ensures workers { map W.place result.0.items ≡ map W.place workers.items }
{
    let shared = &Shared::new(alloc, script.nodes());
    let many = workers.len() as u64;
    let (workers, (driver, end)) = work_beside(
        rt,
        workers,
        tools,
        shared,
        move || -> (Driver<N>, Result<(), Halt>)
            requires { MayPlay (library_of lib.now) (seen N.view N.read driver) script.now.commands }
            ensures { Plays N.view N.read N.place driver script.entry.now.commands result.1 result.0 }
        {
            let mut crew = Crew { rt, shared, many };
            run_through(driver, alloc, lib, script, &mut crew)
        },
    );
    (workers, driver, end)
}

/// Makes a call, which is one stretch over stores of so many nodes of this graph, while the workers work beside it from its begin to its end, each on a thread of its own where one can be had. The call is made on this thread.
pub fn call_beside<R: Threads + Wait, T: Sync, W: Works<T> + Send, A, F: FnOnce() -> A>(
    rt: &R,
    workers: Vec<W>,
    tools: &T,
    alloc: Global,
    graph: &Graph,
    nodes: u8,
    call: F,
) -> (Vec<W>, A)
    requires { F.pre call }
    ensures done { F.post call result.1 }
    ensures workers { map W.place result.0.items ≡ map W.place workers.items }
{
    let shared = &Shared::new(alloc, nodes);
    let many = workers.len() as u64;
    work_beside(
        rt,
        workers,
        tools,
        shared,
        move || -> A
            requires { F.pre call }
            ensures { F.post call result }
        {
            let mut crew = Crew { rt, shared, many };
            crew.learn(graph);
            crew.go_beside(MANY, call)
        },
    )
}
