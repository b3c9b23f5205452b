//! One job, from its evaluation to its end.

ghost use Rattle.std.specs.Prelude.{◌≡◌, ◌+◌, ◌≤◌, false, IfOk};
ghost use Rattle.lasp_fns.specs.Steps as counted;
ghost use Rattle.lasp_graph.specs.Library.{library_of};
ghost use Rattle.lasp_replica.specs.Jobs.{IsJobNow};
ghost use Rattle.lasp_core.specs.Core.{rows_of};
ghost use Rattle.lasp_workers.specs.Done.{IsDone};
ghost use Rattle.lasp_workers.specs.Worked.{Counts, HasEnded};

use lasp_core::{Jobs, evaluated_jobs_have_results, jobs_stay, variables_stay};
use lasp_fns::StepLib;
use lasp_graph::EvalRefused;
use lasp_replica::Job;
use std::alloc::{AllocError, Global};

/// Evaluates a job and hands its result in: true where that was taken. A job that can't be evaluated, since the library lacks a function or the result has too many rows, is given back, and so is each that finds no memory.
pub(crate) fn do_job<J: Jobs>(
    alloc: Global,
    jobs: &mut J,
    lib: &mut StepLib,
    mut job: Job,
) -> Result<bool, AllocError>
    requires job { IsJobNow (J.frame jobs.old) (J.list jobs.old) job.var job }
    ensures ended { Counts result (λ n. HasEnded J.place J.frame J.caller J.list J.looks J.rows_owed n jobs.old jobs.new) }
    ensures left { IfOk result (λ finished. finished ≡ false → IsDone (library_of (counted.library_of lib.old)) (J.frame jobs.new) (J.list jobs.new)) }
    ensures library { counted.library_of lib.new ≡ counted.library_of lib.old }
    ensures ticks { counted.ticks_of lib.new ≤ counted.ticks_of lib.old + rows_of job }
{
    evaluated_jobs_have_results();
    variables_stay();
    if !job.fits(lib) {
        jobs.give_back(job);
        return Ok(false);
    }
    match job.evaluate(alloc, lib) {
        Ok(state) => match jobs.finish(job, state) {
            Ok(_) => Ok(true),
            Err((job, error)) => {
                jobs.give_back(job);
                Err(error)
            }
        },
        Err(EvalRefused::TooManyRows) => {
            jobs.give_back(job);
            jobs.recall_legal();
            Ok(false)
        }
        Err(EvalRefused::Memory) => {
            jobs.give_back(job);
            Err(AllocError)
        }
    }
}
