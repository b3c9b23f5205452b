//! A core, with jobs and reads of it that are kept while other calls are made.

ghost use Rattle.std.specs.Prelude.{◌≡◌};
ghost use Rattle.tests_cores.specs.Kept.{IsWork};

use crate::call::{Doing, Until};
use crate::cores::{
    declare, deliver, give_back, hand_in, job_of, open, settle, threshold, unread_of, update,
};
use crate::traits::{Alone, look, work};
use crate::work::{Work, evaluated};
use crate::wrong::Wrong;
use lasp_core::{
    Core, DeliverRefused, ReadNo, Released, UpdateRefused, jobs_stay, reads_stay_open,
};
use lasp_fns::{Library, StepLib};
use lasp_replica::Job;
use lasp_state::State;
use lasp_wire::Message;
use std::alloc::{AllocError, Global};
use std::marker::Model;
use std::sync::Arc;

/// How many reads there is room for, so that one that was opened can be kept.
const MOST_READS: usize = 64;

/// A core, the jobs that are out and were evaluated, and the reads that were opened.
#[derive(Drop)]
pub struct Desk {
    core: Core,
    works: Vec<Work>,
    reads: Vec<ReadNo>,
}

impl Model for Desk {
    ghost use Rattle.model_core.specs.Core as plain;
    ghost use Rattle.lasp_core.specs.Coded.{coded_core};
    ghost use Rattle.lasp_core.specs.Reads.{read_of};
    ghost use Rattle.tests_cores.specs.Kept.{AreKept};

    ghost Value = { plain.Core };

    ghost coded = { coded_core };

    ghost view = { λ a. a.core };

    ghost invariant = { λ a. AreKept (λ w. w.job) (λ w. w.state) read_of a.core a.works.items a.reads.items };
}

/// What a job had to do: its variable, its changed rows, and the rows that it gained.
#[derive(Clone, Copy)]
pub struct Done {
    pub var: u8,
    pub rows: u64,
    pub gained: u64,
}

/// How many rows an evaluated job gained.
fn gained_by(job: &Job) -> u64 {
    match &job.gain {
        Some(rows) => rows.rows(),
        None => 0,
    }
}

impl Desk {
    /// A core of which nothing is kept, with room for the reads that are opened.
    pub fn new(alloc: Global, core: Core) -> Result<Desk, AllocError> {
        Ok(Desk {
            core,
            works: Vec::new(alloc),
            reads: Vec::with_capacity(alloc, MOST_READS)?,
        })
    }

    /// The core.
    pub fn core(&self) -> &Core
        ensures { result.now ≡ self.now }
    {
        &self.core
    }

    /// Updates a variable.
    pub fn update(
        &mut self,
        alloc: Global,
        var: u8,
        doing: Doing,
        n: i64,
    ) -> Result<Released, UpdateRefused> {
        jobs_stay();
        reads_stay_open();
        update(alloc, &mut self.core, var, doing, n)
    }

    /// Joins a message in.
    pub fn deliver(&mut self, n: u32, message: &Arc<Message>) -> Result<Released, DeliverRefused> {
        jobs_stay();
        reads_stay_open();
        deliver(&mut self.core, n, message)
    }

    /// Declares a variable.
    pub fn declare(&mut self, alloc: Global, lib: &Library, text: &str) -> Result<(), Wrong> {
        jobs_stay();
        reads_stay_open();
        declare(alloc, &mut self.core, lib, text)
    }

    /// Does the next job, as workers do.
    pub fn work(
        &mut self,
        alloc: Global,
        by_rows: &mut StepLib,
        by_base: &mut StepLib,
    ) -> Result<Option<Released>, Wrong> {
        jobs_stay();
        reads_stay_open();
        work(alloc, &mut self.core, by_rows, by_base)
    }

    /// Brings a variable up in place.
    pub fn settle(&mut self, lib: &mut StepLib, var: u8) -> Result<Option<Released>, Wrong> {
        jobs_stay();
        reads_stay_open();
        settle(&mut self.core, lib, var)
    }

    /// Keeps a job with its result.
    fn keep(&mut self, work: Work) -> Result<(), Wrong>
        requires { IsWork self.old.frame self.old.entries work.job work.state }
    {
        let is_kept = self.works.push(work).is_ok();
        if is_kept { Ok(()) } else { Err(Wrong::Refused) }
    }

    /// Takes a job, of this variable or the next one, and keeps it with its result; nothing where there is none.
    pub fn take(
        &mut self,
        alloc: Global,
        by_rows: &mut StepLib,
        by_base: &mut StepLib,
        var: Option<u8>,
    ) -> Result<Option<Done>, Wrong> {
        let Some(job) = job_of(&mut self.core, var)? else {
            return Ok(None);
        };
        let rows = unread_of(&self.core, &job);
        let work = evaluated(alloc, by_rows, by_base, job)?;
        let done = Done {
            var: work.job.var,
            rows,
            gained: gained_by(&work.job),
        };
        self.keep(work)?;
        Ok(Some(done))
    }

    /// Hands in the result of a job that is kept; nothing where there is none.
    pub fn end(&mut self, place: usize) -> Result<Option<Released>, Wrong> {
        if place >= self.works.len() {
            return Ok(None);
        }
        jobs_stay();
        reads_stay_open();
        let (job, state) = self.works.remove(place).into_parts();
        hand_in(&mut self.core, job, state)
    }

    /// Gives back a job that is kept, where there is one.
    pub fn back(&mut self, place: usize) {
        if place < self.works.len() {
            let (job, _) = self.works.remove(place).into_parts();
            give_back(&mut self.core, job);
        }
    }

    /// Opens a read and answers its number; nothing where the variable can't be asked so.
    pub fn open(
        &mut self,
        alloc: Global,
        var: u8,
        until: Until,
        n: i64,
    ) -> Result<Option<u64>, Wrong> {
        let threshold = threshold(alloc, &self.core, var, until, n)?;
        let Some(read) = open(&mut self.core, var, threshold)? else {
            return Ok(None);
        };
        let number = read.number();
        let is_kept = self.reads.push(read).is_ok();
        if is_kept {
            Ok(Some(number))
        } else {
            Err(Wrong::Refused)
        }
    }

    /// The state of a read that was opened, where it is at its threshold.
    pub fn ask(&self, place: usize) -> Result<Option<Arc<State>>, AllocError> {
        if place >= self.reads.len() {
            return Ok(None);
        }
        let mut alone = Alone {
            core: &self.core,
            looks: 0,
        };
        look(&mut alone, &self.reads[place])
    }

    /// Closes a read that was opened. Whoever closes it again changes nothing.
    pub fn close(&mut self, place: usize) {
        if place < self.reads.len() {
            self.core.close_read(&self.reads[place]);
        }
    }
}
