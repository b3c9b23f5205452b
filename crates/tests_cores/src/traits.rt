//! Workers and readers that know their replica by a trait alone.

ghost use Rattle.std.specs.Prelude.{◌≡◌, None};
ghost use Rattle.model_graph.specs.Lawful.{IsDerived};
ghost use Rattle.model_journal.specs.Journal.{graph};
ghost use Rattle.lasp_core.specs.Listed.{GoesOn};
ghost use Rattle.lasp_core.specs.Reads.{read_of};

use crate::work::evaluated;
use crate::wrong::Wrong;
use lasp_core::{Core, Jobs, ReadNo, Released, Try, Watched, states_are_those_after_the_entries};
use lasp_fns::StepLib;
use lasp_replica::Job;
use lasp_state::State;
use std::alloc::{AllocError, Global};
use std::sync::Arc;

/// Does the next job of any replica that takes in nothing of others meanwhile, and answers the reads that this released; none where there is no job.
pub fn work<J: Jobs>(
    alloc: Global,
    replica: &mut J,
    by_rows: &mut StepLib,
    by_base: &mut StepLib,
) -> Result<Option<Released>, Wrong>
    requires { J.looks replica.old ≡ None }
    ensures frame { J.frame replica.new ≡ J.frame replica.old }
    ensures list { GoesOn (J.list replica.old) (J.list replica.new) }
{
    let Some(job) = replica.take()? else {
        return Ok(None);
    };
    let (job, state) = evaluated(alloc, by_rows, by_base, job)?.into_parts();
    match replica.finish(job, state) {
        Ok(released) => Ok(Some(released)),
        Err((job, error)) => {
            drop(job.into_parts());
            Err(error)?
        }
    }
}

/// Gives a job of such a replica back.
pub fn give_back<J: Jobs>(replica: &mut J, job: Job)
    requires looks { J.looks replica.old ≡ None }
    requires derived { IsDerived (graph (J.frame replica.old) (J.list replica.old)) job.var }
    ensures frame { J.frame replica.new ≡ J.frame replica.old }
    ensures list { J.list replica.new ≡ J.list replica.old }
{
    replica.give_back(job);
}

/// How many changed rows the jobs of any replica had.
pub fn owed<J: Jobs>(replica: &J) -> u64 {
    replica.recall_legal();
    replica.owed()
}

/// A core that nobody else has in hand.
#[derive(Drop)]
pub struct Alone<'a> {
    pub core: &'a Core,
    pub looks: u64,
}

impl Watched for Alone<'_> {
    ghost use Rattle.model_journal.specs.Entry.{Frame};
    ghost use Rattle.lasp_core.specs.Core.{IsOpen, state_after};

    ghost Place = { Frame };

    ghost place = { λ s. s.core.now.frame };

    ghost misses = { λ s. 0 };

    ghost looks = { λ s. s.looks };

    ghost now = { λ s x. state_after s.core.now.frame s.core.now.entries x };

    ghost IsFresh = { λ s. Unit {0} };

    ghost IsOpen = { λ s r. IsOpen s.core.now.frame s.core.now.entries r };

    fn try_poll(&mut self, r: &ReadNo) -> Result<Option<Arc<State>>, Try<AllocError>> {
        if self.looks > 1000 {
            return Err(Try::Refused(AllocError));
        }
        states_are_those_after_the_entries();
        match self.core.poll_read(r) {
            Ok(found) => {
                self.looks += 1;
                Ok(found)
            }
            Err(error) => Err(Try::Refused(error)),
        }
    }
}

/// What a look at any replica finds of a read.
pub fn look<W: Watched>(replica: &mut W, read: &ReadNo) -> Result<Option<Arc<State>>, AllocError>
    requires { W.IsOpen replica.old (read_of read.now) }
{
    match replica.try_poll(read) {
        Ok(found) => Ok(found),
        Err(Try::Busy) => Ok(None),
        Err(Try::Refused(error)) => Err(error),
    }
}
