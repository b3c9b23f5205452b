//! One replica, asked for a job.

ghost use Rattle.std.specs.Prelude.{◌≡◌, IfOk};
ghost use Rattle.lasp_fns.specs.Steps as counted;
ghost use Rattle.lasp_graph.specs.Library.{library_of};
ghost use Rattle.lasp_workers.specs.Done.{IsDone};
ghost use Rattle.lasp_workers.specs.Replicas.{pair_of};
ghost use Rattle.lasp_workers.specs.Asked.{CountsAsked};
ghost use Rattle.lasp_workers.specs.Worked.{HasAsked, IsLeftDone};
ghost use Rattle.lasp_workers.specs.declared.ask.Asked.TheVariants.{Done};

use crate::gate::Gate;
use crate::job::do_job;
use crate::replicas::Replica;
use lasp_core::Jobs;
use lasp_fns::StepLib;
use std::alloc::{AllocError, Global};

/// What asking a replica came to.
#[derive(Clone, Copy, PartialEq, Eq)]
pub(crate) enum Asked {
    /// A job was done, and its result was taken.
    Finished,
    /// The gate admitted nobody to the job, which was given back.
    Waits,
    /// Nothing is left to do.
    Done,
}

/// Takes a job of the replica and does it, where the gate admits the worker. A replica that was left isn't asked any more, and one whose job can't be evaluated is left.
pub(crate) fn ask<J: Jobs, G: Gate>(
    alloc: Global,
    worker: u32,
    replica: &mut Replica<J>,
    lib: &mut StepLib,
    gate: &G,
) -> Result<Asked, AllocError>
    requires left { IsLeftDone J.frame J.list (library_of (counted.library_of lib.old)) replica.old }
    ensures asked { CountsAsked result (λ n. HasAsked J.place J.frame J.caller J.list J.looks J.rows_owed n (counted.ticks_of lib.old) (counted.ticks_of lib.new) (pair_of replica.old) (pair_of replica.new)) }
    ensures left { IsLeftDone J.frame J.list (library_of (counted.library_of lib.old)) replica.new }
    ensures done { IfOk result (λ asked. asked ≡ Done → IsDone (library_of (counted.library_of lib.old)) (J.frame replica.new.jobs) (J.list replica.new.jobs)) }
    ensures library { counted.library_of lib.new ≡ counted.library_of lib.old }
{
    if replica.is_left {
        return Ok(Asked::Done);
    }
    if is_kept_out(worker, replica, gate) {
        return Ok(Asked::Waits);
    }
    match replica.jobs.take() {
        Ok(Some(job)) => {
            let var = job.var;
            if !gate.admits(worker, replica.node, var) {
                replica.jobs.give_back(job);
                replica.waits_for = Some(var);
                return Ok(Asked::Waits);
            }
            replica.waits_for = None;
            gate.pass(worker, replica.node, var);
            let done = do_job(alloc, &mut replica.jobs, lib, job);
            gate.leaves(worker, replica.node, var);
            match done {
                Ok(true) => Ok(Asked::Finished),
                Ok(false) => {
                    replica.is_left = true;
                    Ok(Asked::Done)
                }
                Err(error) => Err(error),
            }
        }
        Ok(None) => Ok(Asked::Done),
        Err(error) => Err(error),
    }
}

/// Whether the gate still keeps the worker from the variable to which it wasn't admitted.
fn is_kept_out<J, G: Gate>(worker: u32, replica: &Replica<J>, gate: &G) -> bool {
    match replica.waits_for {
        Some(var) => gate.keeps_out(worker, replica.node, var),
        None => false,
    }
}
