//! Settling a store by its feed, whatever others do meanwhile.

ghost use Rattle.std.specs.Prelude.{◌≡◌, ◌+◌, ◌<◌, [], ◌∷◌, false, length, IfErr, IfOk, IfSome, IfNone, OnOk, OnErr};
ghost use Rattle.lasp_store.specs.Prelude.{first_large, FitsAll, graph, vals, peer_of, library_of, Bind, entry, IsDerived, IsJobOf, IsJobNow, IsResultOf, IsUnclean, IsStill, IsInTurn, HasEnded, HadTurn, IsSeated, frame_of, graph_seen, evaluation, AreEvaluatedBelow, HasSettled, IsDone, Settles, TellsFirst, HasBound, HasPassed};
ghost use Rattle.lasp_fns.specs.Steps as counted;

use crate::store::{Feed, Store};
use lasp_core::{Core, Settle, evaluated_jobs_have_results, variables_stay};
use lasp_fns::{Library, StepLib};
use lasp_graph::EvalRefused;
use lasp_replica::Job;
use lasp_state::State;
use std::alloc::{AllocError, Global};
use std::sync::Wait;

/// A job of the variable, where it is derived and isn't clean.
fn unclean_job(core: &mut Core, var: u8) -> Result<Option<Job>, AllocError>
    requires { var < length (graph core.old.frame core.old.entries) }
    ensures same { IsStill core.old core.new }
    ensures none { IfOk result (λ found. IfNone found (IsDone core.new.frame core.new.entries var)) }
    ensures job { IfOk result (λ found. IfSome found (IsJobNow core.new.frame core.new.entries var)) }
    ensures unclean { IfOk result (λ found. IfSome found (λ job. IsUnclean core.new.frame core.new.entries var)) }
{
    let is_source = core.graph().at(u64::from(var)).kind.is_source();
    if is_source {
        return Ok(None);
    }
    if core.is_clean(var) {
        return Ok(None);
    }
    match core.take_var(var) {
        Ok(job) => Ok(Some(job)),
        Err(error) => Err(error),
    }
}

impl Store {
    fn end_count(&self, f: &mut Feed, core: Box<Core>) -> u8
        requires turn { IsInTurn self.now f.old core.value }
        ensures turn { HasEnded [] f.old f.new }
        ensures many { result ≡ length (graph_seen f.new) }
    {
        core.recall();
        core.graph().recall();
        let many = core.graph().len() as u8;
        self.end(f, core);
        many
    }

    /// The number of variables, in a turn of its own.
    fn settle_count<R: Wait>(&self, rt: &R, f: &mut Feed) -> u8
        requires lock { f.old.lock ≡ self.now }
        requires idle { f.old.turn ≡ false }
        requires first { f.old.number ≡ 0 }
        ensures pass { HasSettled f.old f.new }
        ensures turn { HadTurn [] f.old f.new }
        ensures seated { IsSeated self.now f.new }
        ensures many { result ≡ length (graph_seen f.new) }
    {
        f.known();
        let core = self.begin(rt, f);
        let many = self.end_count(f, core);
        f.known();
        many
    }

    fn end_length(&self, f: &mut Feed, core: Box<Core>) -> u64
        requires turn { IsInTurn self.now f.old core.value }
        ensures turn { HasEnded [] f.old f.new }
        ensures length { result ≡ length f.new.seen }
    {
        core.recall();
        let length = core.journal_len();
        self.end(f, core);
        length
    }

    /// The length of the journal, in a turn of its own. It may wait for others.
    pub fn settle_length<R: Wait>(&self, rt: &R, f: &mut Feed) -> u64
        requires seated { IsSeated self.now f.old }
        requires first { f.old.number ≡ 0 }
        ensures pass { HasSettled f.old f.new }
        ensures turn { HadTurn [] f.old f.new }
        ensures seated { IsSeated self.now f.new }
        ensures length { result ≡ length f.new.seen }
    {
        f.known();
        let core = self.begin(rt, f);
        let length = self.end_length(f, core);
        f.known();
        length
    }

    fn end_unclean(
        &self,
        f: &mut Feed,
        mut core: Box<Core>,
        var: u8,
    ) -> Result<Option<Job>, AllocError>
        requires turn { IsInTurn self.now f.old core.value }
        requires var { var < length (graph_seen f.old) }
        ensures turn { HasEnded [] f.old f.new }
        ensures none { IfOk result (λ found. IfNone found (IsDone (frame_of f.new) f.new.seen var)) }
        ensures job { IfOk result (λ found. IfSome found (IsJobNow (frame_of f.new) f.new.seen var)) }
        ensures unclean { IfOk result (λ found. IfSome found (λ job. IsUnclean (frame_of f.new) f.new.seen var)) }
    {
        core.recall();
        let found = unclean_job(&mut core, var);
        core.recall();
        self.end(f, core);
        found
    }

    /// A job of the variable, where it is derived and isn't clean.
    fn settle_take<R: Wait>(&self, rt: &R, f: &mut Feed, var: u8) -> Result<Option<Job>, AllocError>
        requires seated { IsSeated self.now f.old }
        requires first { f.old.number ≡ 0 }
        requires var { var < length (graph_seen f.old) }
        ensures pass { HasSettled f.old f.new }
        ensures turn { HadTurn [] f.old f.new }
        ensures seated { IsSeated self.now f.new }
        ensures none { IfOk result (λ found. IfNone found (IsDone (frame_of f.new) f.new.seen var)) }
        ensures job { IfOk result (λ found. IfSome found (IsJobNow (frame_of f.new) f.new.seen var)) }
        ensures unclean { IfOk result (λ found. IfSome found (λ job. IsUnclean (frame_of f.new) f.new.seen var)) }
    {
        variables_stay();
        f.known();
        let core = self.begin(rt, f);
        let found = self.end_unclean(f, core, var);
        f.known();
        found
    }

    /// Hands in the result of a job, or hands the job back.
    fn settle_finish<R: Wait>(
        &self,
        rt: &R,
        f: &mut Feed,
        job: Job,
        state: State,
    ) -> Result<(), Job>
        requires seated { IsSeated self.now f.old }
        requires first { f.old.number ≡ 0 }
        requires job { IsJobOf (frame_of f.old) f.old.seen job }
        requires result { IsResultOf (frame_of f.old) f.old.seen job state }
        ensures pass { HasSettled f.old f.new }
        ensures seated { IsSeated self.now f.new }
        ensures ok { OnOk result (HasBound (entry 0 (Bind job.var job.n)) f.old.seen f.new.seen) }
        ensures taken { OnOk result (HadTurn (entry 0 (Bind job.var job.n) ∷ []) f.old f.new) }
        ensures refused { OnErr result (HadTurn [] f.old f.new) }
        ensures back { IfErr result (λ e. e ≡ job) }
    {
        f.known();
        match self.finish(rt, f, job, state) {
            Ok(_) => {
                f.known();
                Ok(())
            }
            Err((job, _)) => {
                f.known();
                Err(job)
            }
        }
    }

    /// Gives a job back.
    fn settle_back<R: Wait>(&self, rt: &R, f: &mut Feed, job: Job)
        requires seated { IsSeated self.now f.old }
        requires first { f.old.number ≡ 0 }
        requires derived { IsDerived (graph_seen f.old) job.var }
        ensures pass { HasSettled f.old f.new }
        ensures turn { HadTurn [] f.old f.new }
        ensures seated { IsSeated self.now f.new }
    {
        f.known();
        self.give_back(rt, f, job);
        f.known();
    }

    /// Does a job: evaluates it while others may have the core, and hands its result in; or gives it back.
    fn settle_job<R: Wait>(
        &self,
        rt: &R,
        alloc: Global,
        f: &mut Feed,
        lib: &mut StepLib,
        mut job: Job,
    ) -> Result<(), Settle>
        requires seated { IsSeated self.now f.old }
        requires first { f.old.number ≡ 0 }
        requires job { IsJobNow (frame_of f.old) f.old.seen job.var job }
        requires unclean { IsUnclean (frame_of f.old) f.old.seen job.var }
        requires below { AreEvaluatedBelow (frame_of f.old) f.old.seen job.var }
        requires fits { FitsAll (library_of (counted.library_of lib.old)) (graph_seen f.old) }
        ensures pass { HasSettled f.old f.new }
        ensures seated { IsSeated self.now f.new }
        ensures ok { OnOk result (AreEvaluatedBelow (frame_of f.new) f.new.seen (job.var + 1)) }
        ensures once { OnOk result (HasPassed job.var (job.var + 1) 0 f.old f.new) }
        ensures stopped { OnErr result (HasPassed job.var (job.var + 1) 2 f.old f.new) }
        ensures large { TellsFirst (first_large 0 (evaluation (frame_of f.new) f.new.seen)) result }
        ensures library { counted.library_of lib.new ≡ counted.library_of lib.old }
    {
        evaluated_jobs_have_results();
        variables_stay();
        match job.evaluate(alloc, lib) {
            Ok(state) => match self.settle_finish(rt, f, job, state) {
                Ok(()) => Ok(()),
                Err(job) => {
                    self.settle_back(rt, f, job);
                    Err(Settle::Memory)
                }
            },
            Err(EvalRefused::TooManyRows) => {
                let var = job.var;
                self.settle_back(rt, f, job);
                Err(Settle::TooLarge(var))
            }
            Err(EvalRefused::Memory) => {
                self.settle_back(rt, f, job);
                Err(Settle::Memory)
            }
        }
    }

    /// Brings one variable to what plain evaluation gives, where those before it are there.
    fn settle_var<R: Wait>(
        &self,
        rt: &R,
        alloc: Global,
        f: &mut Feed,
        lib: &mut StepLib,
        var: u8,
    ) -> Result<(), Settle>
        requires seated { IsSeated self.now f.old }
        requires first { f.old.number ≡ 0 }
        requires var { var < length (graph_seen f.old) }
        requires below { AreEvaluatedBelow (frame_of f.old) f.old.seen var }
        requires fits { FitsAll (library_of (counted.library_of lib.old)) (graph_seen f.old) }
        ensures pass { HasSettled f.old f.new }
        ensures seated { IsSeated self.now f.new }
        ensures ok { OnOk result (AreEvaluatedBelow (frame_of f.new) f.new.seen (var + 1)) }
        ensures once { OnOk result (HasPassed var (var + 1) 1 f.old f.new) }
        ensures stopped { OnErr result (HasPassed var (var + 1) 3 f.old f.new) }
        ensures large { TellsFirst (first_large 0 (evaluation (frame_of f.new) f.new.seen)) result }
        ensures library { counted.library_of lib.new ≡ counted.library_of lib.old }
    {
        match self.settle_take(rt, f, var) {
            Err(_) => Err(Settle::Memory),
            Ok(found) => match found {
                None => Ok(()),
                Some(job) => self.settle_job(rt, alloc, f, lib, job),
            },
        }
    }

    /// Brings every derived variable to what plain evaluation gives of the sources, whatever others do meanwhile. It goes through the variables once, in ascending order, passes over one that has taken in its inputs as they are at its turn, and evaluates the others while others may have the core. Each variable takes a turn, and one that is evaluated takes a second, or a third where its job has to be given back for want of memory; there is one turn before them and one behind. After a refusal the sources are as before, and derived variables may have grown. It doesn't tell which reads its results released: who waits for one polls it.
    pub fn settle_all<R: Wait>(
        &self,
        rt: &R,
        alloc: Global,
        f: &mut Feed,
        lib: &Library,
    ) -> Result<u64, Settle>
        requires lock { f.old.lock ≡ self.now }
        requires idle { f.old.turn ≡ false }
        requires first { f.old.number ≡ 0 }
        requires fits { FitsAll (library_of lib.now) (graph_seen f.old) }
        ensures pass { HasSettled f.old f.new }
        ensures seated { IsSeated self.now f.new }
        ensures graph { graph_seen f.new ≡ graph_seen f.old }
        ensures peer { peer_of (frame_of f.new) f.new.seen ≡ peer_of (frame_of f.old) f.old.seen }
        ensures length { IfOk result (λ n. n ≡ length f.new.seen) }
        ensures settled { OnOk result (vals (frame_of f.new) f.new.seen ≡ evaluation (frame_of f.new) f.new.seen) }
        ensures once { HasPassed 0 (length (graph_seen f.new)) (length (graph_seen f.new) + 3) f.old f.new }
        ensures done { Settles (first_large 0 (evaluation (frame_of f.new) f.new.seen)) result }
    {
        let mut steps = StepLib::new(lib);
        let many = self.settle_count(rt, f);
        for var in 0..many {
            match self.settle_var(rt, alloc, f, &mut steps, var) {
                Ok(()) => {}
                Err(why) => return Err(why),
            }
        }
        Ok(self.settle_length(rt, f))
    }
}
