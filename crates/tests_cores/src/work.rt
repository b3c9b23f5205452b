//! Jobs that are evaluated: by the rows that they bring, and once more by their bases and inputs alone.

ghost use Rattle.std.specs.Prelude.{◌≡◌, List, IfOk};
ghost use Rattle.model_journal.specs.Entry.{Entry, Frame};
ghost use Rattle.lasp_graph.specs.Evaluated as evaluated;
ghost use Rattle.lasp_replica.specs.Jobs.{IsJobNow};
ghost use Rattle.tests_cores.specs.Kept.{IsWork};

use crate::told::is_same;
use crate::wrong::Wrong;
use lasp_fns::StepLib;
use lasp_graph::{Inputs, node_delta};
use lasp_replica::Job;
use lasp_state::State;
use std::alloc::Global;

/// A job that was evaluated, with its result.
pub struct Work {
    pub job: Job,
    pub state: State,
}

impl Drop for Work {
    fn drop(self) {
        let Work { job, state: _ } = self;
        drop(job.into_parts());
    }
}

impl Work {
    /// The job and its result.
    pub fn into_parts(self) -> (Job, State)
        ensures job { result.0 ≡ self.job }
        ensures state { result.1 ≡ self.state }
    {
        let Work { job, state } = self;
        (job, state)
    }
}

/// The second input, or the first one where there is no second.
fn second_of(inputs: &Inputs) -> &State
    ensures { result.now ≡ evaluated.second_of inputs.now }
{
    match &inputs.second {
        Some(second) => second,
        None => &inputs.first,
    }
}

/// A job's state is what `node_delta` makes of its graph, its base, its state before and its inputs.
fn check_by_base(
    alloc: Global,
    steps: &mut StepLib,
    job: &Job,
    state: &State,
) -> Result<(), Wrong> {
    let is_more = job.base.first.le(&job.inputs.first)
        && second_of(&job.base).le(second_of(&job.inputs));
    if !is_more || !job.fits(steps) {
        return Err(Wrong::ByBase);
    }
    let again = node_delta(
        alloc,
        &job.graph,
        steps,
        job.var,
        &job.base,
        &job.before,
        &job.inputs,
    )?;
    if is_same(alloc, &again, state)? {
        Ok(())
    } else {
        Err(Wrong::ByBase)
    }
}

/// Evaluates a job in both ways, each over a library of its own.
pub fn evaluated(
    alloc: Global,
    by_rows: &mut StepLib,
    by_base: &mut StepLib,
    mut job: Job,
) -> Result<Work, Wrong>
    ensures work { IfOk result (λ w. (X : Frame) (entries : List Entry) → IsJobNow X entries job.var job → IsWork X entries w.job w.state) }
    ensures same { IfOk result (λ w. (w.job.var ≡ job.var) × (w.job.n ≡ job.n)) }
{
    if job.fits(by_rows) {
        if let Ok(state) = job.evaluate(alloc, by_rows) {
            let work = Work { job, state };
            check_by_base(alloc, by_base, &work.job, &work.state)?;
            return Ok(work);
        }
    }
    drop(job.into_parts());
    Err(Wrong::Refused)
}
