//! What hands do in threads of their own: jobs, until they have done so many.

ghost use Rattle.std.specs.Prelude.{◌≡◌, IfSome};
ghost use Rattle.std.specs.Arc.{arc_value};
ghost use Rattle.lasp_histlock.specs.Names.{LockId};
ghost use Rattle.lasp_replica.specs.Jobs.{IsJobNow};
ghost use Rattle.tests_store.specs.Kept.{IsFeed};

use crate::feeding::split;
use lasp_core::{Jobs, Released, evaluated_jobs_have_results, variables_stay};
use lasp_fns::{Library, StepLib};
use lasp_graph::Graph;
use lasp_replica::Job;
use lasp_store::{Feed, Hand, Seated, Store};
use std::alloc::Global;
use std::sync::atomic::{AtomicU64, Ordering};
use std::sync::{Arc, Wait};
use std::thread::yield_now;

/// How often a hand asks for a job at most.
const MOST: u32 = 20_000_000;

/// Does a job of a replica, and answers the reads that its result released, where that was taken in. One that can't be evaluated is given back.
fn do_job<J: Jobs>(
    alloc: Global,
    replica: &mut J,
    steps: &mut StepLib,
    mut job: Job,
) -> Option<Released>
    requires { IsJobNow (J.frame replica.old) (J.list replica.old) job.var job }
    ensures { J.place replica.new ≡ J.place replica.old }
{
    evaluated_jobs_have_results();
    variables_stay();
    if !job.fits(steps) {
        replica.give_back(job);
        return None;
    }
    match job.evaluate(alloc, steps) {
        Ok(state) => match replica.finish(job, state) {
            Ok(released) => Some(released),
            Err((job, _)) => {
                drop(job.into_parts());
                None
            }
        },
        Err(_) => {
            replica.give_back(job);
            None
        }
    }
}

/// Does the next job of a replica, if there is one.
fn do_next<J: Jobs>(alloc: Global, replica: &mut J, steps: &mut StepLib) -> Option<Released>
    ensures { J.place replica.new ≡ J.place replica.old }
{
    match replica.take() {
        Ok(Some(job)) => do_job(alloc, replica, steps, job),
        Ok(None) => None,
        Err(_) => None,
    }
}

/// Does so many jobs, each counted where all can see it, and tells how many it did.
fn do_jobs<J: Jobs>(
    alloc: Global,
    replica: &mut J,
    steps: &mut StepLib,
    done: &AtomicU64,
    goal: u64,
) -> u64
    ensures { J.place replica.new ≡ J.place replica.old }
{
    let mut jobs = 0u64;
    for _ in 0..MOST {
        if jobs >= goal {
            return jobs;
        }
        if do_next(alloc, replica, steps).is_some() {
            jobs = jobs.saturating_add(1);
            done.fetch_add(1, Ordering::SeqCst);
        } else {
            yield_now();
        }
    }
    jobs
}

/// What a hand did, and the hand, where it is still there.
#[derive(Drop)]
pub struct Worked {
    pub hand: Option<Hand>,
    pub jobs: u64,
}

/// What goes to a thread of its own and acts there.
pub trait Party: Drop {
    // the lock of its hand's store
    ghost lock: { Self → LockId };

    /// Each job that it does is counted where all can see it.
    fn act(self, done: &AtomicU64) -> Worked
        ensures { IfSome result.hand (λ h. h.lock ≡ lock self) };
}

/// A hand at its store with so many jobs to do. One that doesn't stay takes one more, and is dropped with it.
#[derive(Drop)]
pub struct Worker<'a, R> {
    pub seated: Seated<'a, R>,
    pub alloc: Global,
    pub goal: u64,
    pub stays: bool,
}

impl<'a, R: Wait> Party for Worker<'a, R> {
    ghost lock = { λ w. w.seated.0.lock };

    /// Does the jobs, of a graph that names no functions.
    fn act(self, done: &AtomicU64) -> Worked {
        let Worker {
            mut seated,
            alloc,
            goal,
            stays,
        } = self;
        let lib = Library::new(alloc);
        let mut steps = StepLib::new(&lib);
        let jobs = do_jobs(alloc, &mut seated, &mut steps, done, goal);
        if stays {
            return Worked {
                hand: Some(seated.into_hand()),
                jobs,
            };
        }
        if let Ok(Some(job)) = seated.take() {
            drop(job.into_parts());
        }
        Worked { hand: None, jobs }
    }
}

/// A hand had no job, or couldn't do it.
#[derive(Clone, Copy, Debug)]
pub struct NoJob;

/// A hand is split, does a job, and comes back. It answers what that released, and how many rows the hand's jobs had.
pub fn work_once<R: Wait>(
    rt: &R,
    alloc: Global,
    store: &Store,
    f: &mut Feed,
    graph: &Arc<Graph>,
    lib: &Library,
) -> (Result<Released, NoJob>, u64)
    requires { IsFeed store.now (arc_value graph.now) f.old }
    ensures { IsFeed store.now (arc_value graph.now) f.new }
{
    let Ok(hand) = split(store, f, graph) else {
        return (Err(NoJob), 0);
    };
    let mut steps = StepLib::new(lib);
    let mut seated = Seated::new(store, hand, rt);
    let released = do_next(alloc, &mut seated, &mut steps);
    let owed = seated.owed();
    store.rejoin(f, seated.into_hand());
    (released.ok_or(NoJob), owed)
}
