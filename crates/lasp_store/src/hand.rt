//! What every pass does: it looks at variables, takes jobs and hands their results in.

ghost use Rattle.std.specs.Prelude.{◌≡◌, ◌↔◌, ◌+◌, ◌<◌, ◌∷◌, [], false, length, IfOk, IfErr, IfSome, IfNone, OnOk, OnErr, IsTrue};
ghost use Rattle.lasp_store.specs.Prelude.{AllByRecursion, arc_value, IsDerived, entry, vals, is_met, after_miss, held_of, IsUnclean, IsFirst, Lacks, IsJobOf, IsJobNow, IsResultOf, AreAscending, state_after, AreClean, IsBusy, HadTurn, TriedTurn, IsInTurn, HasEnded, frame_of, graph_seen, evaluation, IfRefused};
ghost use Rattle.model_journal.specs.Entry as model;

use crate::store::{Hand, Store};
use lasp_core::{
    Core, NotYet, Released, Try, jobs_stay, states_are_those_after_the_entries, variables_stay,
};
use lasp_replica::{GivenUp, Job};
use lasp_state::State;
use std::alloc::AllocError;
use std::sync::{Arc, Wait};

impl Store {
    fn end_look(&self, h: &mut Hand, core: Box<Core>, var: u8) -> Result<Arc<State>, AllocError>
        requires turn { IsInTurn self.now h.old core.value }
        requires var { var < length (graph_seen h.old) }
        ensures turn { HasEnded [] h.old h.new }
        ensures state { IfOk result (λ s. held_of (arc_value s) ≡ state_after (frame_of h.new) h.new.seen var) }
    {
        core.recall();
        states_are_those_after_the_entries();
        let state = Arc::try_clone(core.state(var));
        self.end(h, core);
        state
    }

    /// The state of a variable, shared. It may wait for others.
    pub fn look<R: Wait>(&self, rt: &R, h: &mut Hand, var: u8) -> Result<Arc<State>, AllocError>
        requires lock { h.old.lock ≡ self.now }
        requires idle { h.old.turn ≡ false }
        requires var { var < length (graph_seen h.old) }
        ensures turn { HadTurn [] h.old h.new }
        ensures state { IfOk result (λ s. held_of (arc_value s) ≡ state_after (frame_of h.new) h.new.seen var) }
    {
        variables_stay();
        let core = self.begin(rt, h);
        self.end_look(h, core, var)
    }

    /// The same, where nobody else has the core. It never waits.
    pub fn try_look(&self, h: &mut Hand, var: u8) -> Result<Arc<State>, Try<AllocError>>
        requires lock { h.old.lock ≡ self.now }
        requires idle { h.old.turn ≡ false }
        requires var { var < length (graph_seen h.old) }
        ensures busy { IsBusy result → h.new ≡ after_miss h.old }
        ensures missed { IsBusy result ↔ (h.new.misses ≡ h.old.misses + 1) }
        ensures ok { OnOk result (TriedTurn [] h.old h.new) }
        ensures refused { IfRefused result (λ why. TriedTurn [] h.old h.new) }
        ensures state { IfOk result (λ s. held_of (arc_value s) ≡ state_after (frame_of h.new) h.new.seen var) }
    {
        variables_stay();
        match self.try_begin(h) {
            None => Err(Try::Busy),
            Some(core) => match self.end_look(h, core, var) {
                Ok(state) => Ok(state),
                Err(why) => Err(Try::Refused(why)),
            },
        }
    }

    fn end_take(&self, h: &mut Hand, mut core: Box<Core>) -> Result<Option<Job>, AllocError>
        requires turn { IsInTurn self.now h.old core.value }
        ensures turn { HasEnded [] h.old h.new }
        ensures none { IfOk result (λ found. IfNone found (AreClean (frame_of h.new) h.new.seen)) }
        ensures unclean { IfOk result (λ found. IfSome found (λ job. IsUnclean (frame_of h.new) h.new.seen job.var)) }
        ensures job { IfOk result (λ found. IfSome found (λ job. IsJobNow (frame_of h.new) h.new.seen job.var job)) }
    {
        core.recall();
        let taken = core.take();
        core.recall();
        self.end(h, core);
        taken
    }

    /// A job of a derived variable that isn't clean, the one that the core names; none where all are clean. It may wait for others.
    pub fn take<R: Wait>(&self, rt: &R, h: &mut Hand) -> Result<Option<Job>, AllocError>
        requires lock { h.old.lock ≡ self.now }
        requires idle { h.old.turn ≡ false }
        ensures turn { HadTurn [] h.old h.new }
        ensures none { IfOk result (λ found. IfNone found (AreClean (frame_of h.new) h.new.seen)) }
        ensures unclean { IfOk result (λ found. IfSome found (λ job. IsUnclean (frame_of h.new) h.new.seen job.var)) }
        ensures job { IfOk result (λ found. IfSome found (λ job. IsJobNow (frame_of h.new) h.new.seen job.var job)) }
    {
        let core = self.begin(rt, h);
        self.end_take(h, core)
    }

    fn end_finish(
        &self,
        h: &mut Hand,
        mut core: Box<Core>,
        job: Job,
        state: State,
    ) -> Result<Released, (Job, AllocError)>
        requires turn { IsInTurn self.now h.old core.value }
        requires job { IsJobOf (frame_of h.old) h.old.seen job }
        requires result { IsResultOf (frame_of h.old) h.old.seen job state }
        ensures ok { OnOk result (HasEnded (entry h.old.number (model.Bind job.var job.n) ∷ []) h.old h.new) }
        ensures err { OnErr result (HasEnded [] h.old h.new) }
        ensures met { IfOk result (AllByRecursion (λ r. IsTrue (is_met (frame_of h.new) h.new.seen r))) }
        ensures ascending { IfOk result AreAscending }
        ensures back { IfErr result (λ e. e.0 ≡ job) }
    {
        core.recall();
        let finished = core.finish(h.number(), job, state);
        core.recall();
        self.end(h, core);
        finished
    }

    /// Takes in the result of a job, under the pass's number. A job that can't be finished comes back, to be given back. It may wait for others.
    pub fn finish<R: Wait>(
        &self,
        rt: &R,
        h: &mut Hand,
        job: Job,
        state: State,
    ) -> Result<Released, (Job, AllocError)>
        requires lock { h.old.lock ≡ self.now }
        requires idle { h.old.turn ≡ false }
        requires job { IsJobOf (frame_of h.old) h.old.seen job }
        requires result { IsResultOf (frame_of h.old) h.old.seen job state }
        ensures ok { OnOk result (HadTurn (entry h.old.number (model.Bind job.var job.n) ∷ []) h.old h.new) }
        ensures err { OnErr result (HadTurn [] h.old h.new) }
        ensures met { IfOk result (AllByRecursion (λ r. IsTrue (is_met (frame_of h.new) h.new.seen r))) }
        ensures ascending { IfOk result AreAscending }
        ensures back { IfErr result (λ e. e.0 ≡ job) }
    {
        jobs_stay();
        let core = self.begin(rt, h);
        self.end_finish(h, core, job, state)
    }

    fn end_back(&self, h: &mut Hand, mut core: Box<Core>, job: GivenUp)
        requires turn { IsInTurn self.now h.old core.value }
        requires derived { IsDerived (graph_seen h.old) job.var }
        ensures { HasEnded [] h.old h.new }
    {
        core.recall();
        core.take_back(job);
        core.recall();
        self.end(h, core);
    }

    /// Takes a job back that wasn't done. It may wait for others, who can write in place by then what the job shared.
    pub fn give_back<R: Wait>(&self, rt: &R, h: &mut Hand, job: Job)
        requires lock { h.old.lock ≡ self.now }
        requires idle { h.old.turn ≡ false }
        requires derived { IsDerived (graph_seen h.old) job.var }
        ensures { HadTurn [] h.old h.new }
    {
        variables_stay();
        let job = job.give_up();
        let core = self.begin(rt, h);
        self.end_back(h, core, job)
    }

    fn end_check(&self, h: &mut Hand, core: Box<Core>) -> Result<u64, NotYet>
        requires turn { IsInTurn self.now h.old core.value }
        ensures turn { HasEnded [] h.old h.new }
        ensures settled { OnOk result (AreClean (frame_of h.new) h.new.seen) }
        ensures evaluated { OnOk result (vals (frame_of h.new) h.new.seen ≡ evaluation (frame_of h.new) h.new.seen) }
        ensures length { IfOk result (λ n. n ≡ length h.new.seen) }
        ensures first { IfErr result (λ why. IsFirst (IsUnclean (frame_of h.new) h.new.seen) why.var) }
        ensures lacks { IfErr result (λ why. Lacks (frame_of h.new) h.new.seen why.var why) }
    {
        core.recall();
        let checked = core.check_settled();
        self.end(h, core);
        checked
    }

    /// The length of the journal, where every derived variable has taken in its inputs as they are, and so is what plain evaluation gives. It may wait for others.
    pub fn check_settled<R: Wait>(&self, rt: &R, h: &mut Hand) -> Result<u64, NotYet>
        requires lock { h.old.lock ≡ self.now }
        requires idle { h.old.turn ≡ false }
        ensures turn { HadTurn [] h.old h.new }
        ensures settled { OnOk result (AreClean (frame_of h.new) h.new.seen) }
        ensures evaluated { OnOk result (vals (frame_of h.new) h.new.seen ≡ evaluation (frame_of h.new) h.new.seen) }
        ensures length { IfOk result (λ n. n ≡ length h.new.seen) }
        ensures first { IfErr result (λ why. IsFirst (IsUnclean (frame_of h.new) h.new.seen) why.var) }
        ensures lacks { IfErr result (λ why. Lacks (frame_of h.new) h.new.seen why.var why) }
    {
        let core = self.begin(rt, h);
        self.end_check(h, core)
    }
}
