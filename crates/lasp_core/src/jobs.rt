//! What a worker asks of a replica, however it comes by it.

ghost use Rattle.std.specs.Prelude.{◌≡◌, ℕ, ◌-◌, List, [], ◌∷◌, ◌++◌, Option, None, length, IfOk, IfErr, OnOk, OnErr, IfSome, IfNone, IsTrue};
ghost use Rattle.std.specs.List.{AllByRecursion};
ghost use Rattle.std.specs.Option.{option_map};
ghost use Rattle.model_graph.specs.Lawful.{IsDerived};
ghost use Rattle.model_journal.specs.Callers.{made_by};
ghost use Rattle.model_journal.specs.Entry as model;
ghost use Rattle.model_journal.specs.Journal.{graph};
ghost use Rattle.model_journal.specs.Legal.{IsLegal};
ghost use Rattle.model_journal.specs.Entry.{entry};
ghost use Rattle.model_core.specs.Core.{Core, is_met, entered, released};
ghost use Rattle.lasp_replica.specs.Jobs.{counted_up, IsUnclean, IsNext, IsJobOf, IsJobNow, IsResultOf};
ghost use Rattle.lasp_core.specs.Core.{rows_of, taken, returned, AreAscending};
ghost use Rattle.lasp_core.specs.Listed.{IsLater, GoesOn, EndsWith, AreClean, HasLooked};

use crate::read::Released;
use crate::replica_core::Core;
use lasp_replica::Job;
use lasp_state::State;
use std::alloc::AllocError;

/// A replica that hands out jobs and takes in their results. It is seen by its place and its frame, which no call changes, and by its list of entries, which only goes on and to which its caller adds the binds of its results alone.
pub trait Jobs {
    // where it stands: what tells it from others of its type
    ghost Place: { Type 0 };

    ghost place: { Self → Place };

    // what never changes of its replica
    ghost frame: { Self → model.Frame };

    // the entries that it has seen
    ghost list: { Self → List model.Entry };

    // the number of the caller who makes its entries
    ghost caller: { Self → ℕ };

    // how many changed rows its jobs had
    ghost rows_owed: { Self → ℕ };

    // how often it looked for entries of others, where it does
    ghost looks: { Self → Option ℕ };

    // how many entries it was told of, where others make some
    ghost told: { Self → Option ℕ };

    // the whole core, where it is the caller's alone
    ghost core: { Self → Option Core };

    /// Recalls, at no cost, that its list is legal, and that a whole core that is told is this one, which looks for no entries of others and is told of none.
    fn recall_legal(&self)
        ensures legal { IsLegal (frame self.now) (list self.now) }
        ensures whole { IfSome (core self.now) (λ c. (c.frame ≡ frame self.now) × (c.entries ≡ list self.now) × (rows_owed self.now ≡ c.owed) × (looks self.now ≡ None) × (told self.now ≡ None)) };

    /// How many changed rows the jobs had that were handed out, held at the greatest number of 64 bits.
    fn owed(&self) -> u64
        ensures { result ≡ rows_owed self.now };

    /// A job of a derived variable that isn't clean; none where all are clean. Where the whole core is told, the variable is the one that the core names.
    fn take(&mut self) -> Result<Option<Job>, AllocError>
        ensures place { place self.new ≡ place self.old }
        ensures frame { frame self.new ≡ frame self.old }
        ensures list { GoesOn (list self.old) (list self.new) }
        ensures alone { looks self.old ≡ None → list self.new ≡ list self.old }
        ensures looked { OnOk result (HasLooked (looks self.old) (looks self.new) (told self.new) (length (list self.new))) }
        ensures none { IfOk result (λ found. IfNone found (AreClean (frame self.new) (list self.new))) }
        ensures unclean { IfOk result (λ found. IfSome found (λ job. IsUnclean (frame self.new) (list self.new) job.var)) }
        ensures caller { caller self.new ≡ caller self.old }
        ensures own { made_by (caller self.old) (list self.new) ≡ made_by (caller self.old) (list self.old) }
        ensures later { IsLater (looks self.old) (looks self.new) }
        ensures told { IsLater (told self.old) (told self.new) }
        ensures taken { IfOk result (λ found. IfSome found (λ job. core self.new ≡ option_map (taken job.var (rows_of job)) (core self.old))) }
        ensures untaken { IfOk result (λ found. IfNone found (core self.new ≡ core self.old)) }
        ensures kept { OnErr result (core self.new ≡ core self.old) }
        ensures next { IfSome (core self.old) (λ c. IfOk result (λ found. IfSome found (λ job. IsNext c.frame c.entries c.busy job.var))) }
        ensures job { IfOk result (λ found. IfSome found (λ job. IsJobNow (frame self.new) (list self.new) job.var job)) }
        ensures owed { IfOk result (λ found. IfSome found (λ job. rows_owed self.new ≡ counted_up (rows_owed self.old) (rows_of job))) }
        ensures rest { IfOk result (λ found. IfNone found (rows_owed self.new ≡ rows_owed self.old)) }
        ensures err { OnErr result (rows_owed self.new ≡ rows_owed self.old) };

    /// Takes in the result of a job. Where the whole core is told, exactly the reads that the result brings to their thresholds are released; else it is known that those which are released are met.
    fn finish(&mut self, job: Job, state: State) -> Result<Released, (Job, AllocError)>
        requires job { IsJobOf (frame self.old) (list self.old) job }
        requires result { IsResultOf (frame self.old) (list self.old) job state }
        ensures place { place self.new ≡ place self.old }
        ensures frame { frame self.new ≡ frame self.old }
        ensures ok { OnOk result (EndsWith (entry (caller self.old) (model.Bind job.var job.n)) (list self.old) (list self.new)) }
        ensures err { OnErr result (GoesOn (list self.old) (list self.new)) }
        ensures alone { looks self.old ≡ None → OnOk result (list self.new ≡ list self.old ++ entry (caller self.old) (model.Bind job.var job.n) ∷ []) }
        ensures same { looks self.old ≡ None → OnErr result (list self.new ≡ list self.old) }
        ensures met { IfOk result (λ reads. AllByRecursion (λ r. IsTrue (is_met (frame self.new) (list self.new) r)) reads) }
        ensures looked { OnOk result (HasLooked (looks self.old) (looks self.new) (told self.new) (length (list self.new) - 1)) }
        ensures caller { caller self.new ≡ caller self.old }
        ensures own_ok { OnOk result (made_by (caller self.old) (list self.new) ≡ made_by (caller self.old) (list self.old) ++ entry (caller self.old) (model.Bind job.var job.n) ∷ []) }
        ensures own_err { OnErr result (made_by (caller self.old) (list self.new) ≡ made_by (caller self.old) (list self.old)) }
        ensures later { IsLater (looks self.old) (looks self.new) }
        ensures told { IsLater (told self.old) (told self.new) }
        ensures bound { OnOk result (core self.new ≡ option_map (λ c. returned job.var (entered (entry (caller self.old) (model.Bind job.var job.n)) c)) (core self.old)) }
        ensures kept { OnErr result (core self.new ≡ core self.old) }
        ensures released { IfSome (core self.old) (λ c. IfOk result (λ reads. reads ≡ released (entry (caller self.old) (model.Bind job.var job.n)) c)) }
        ensures ascending { IfOk result AreAscending }
        ensures owed { rows_owed self.new ≡ rows_owed self.old }
        ensures back { IfErr result (λ e. e.0 ≡ job) };

    /// Takes a job back that wasn't done.
    fn give_back(&mut self, job: Job)
        requires { IsDerived (graph (frame self.old) (list self.old)) job.var }
        ensures place { place self.new ≡ place self.old }
        ensures frame { frame self.new ≡ frame self.old }
        ensures list { GoesOn (list self.old) (list self.new) }
        ensures alone { looks self.old ≡ None → list self.new ≡ list self.old }
        ensures looked { HasLooked (looks self.old) (looks self.new) (told self.new) (length (list self.new)) }
        ensures caller { caller self.new ≡ caller self.old }
        ensures own { made_by (caller self.old) (list self.new) ≡ made_by (caller self.old) (list self.old) }
        ensures later { IsLater (looks self.old) (looks self.new) }
        ensures told { IsLater (told self.old) (told self.new) }
        ensures returned { core self.new ≡ option_map (returned job.var) (core self.old) }
        ensures owed { rows_owed self.new ≡ rows_owed self.old };
}

impl Jobs for Core {
    ghost use Rattle.std.specs.Prelude.{Some, None};
    ghost use Rattle.model_journal.specs.Entry.{Frame};

    ghost Place = { Frame };

    ghost place = { λ c. c.frame };

    ghost frame = { λ c. c.frame };

    ghost list = { λ c. c.entries };

    ghost caller = { λ c. 0 };

    ghost rows_owed = { λ c. c.owed };

    ghost looks = { λ c. None };

    ghost told = { λ c. None };

    ghost core = { λ c. Some c };

    fn recall_legal(&self) {
        self.recall();
    }

    fn owed(&self) -> u64 {
        Core::owed(self)
    }

    fn take(&mut self) -> Result<Option<Job>, AllocError> {
        Core::take(self)
    }

    fn finish(&mut self, job: Job, state: State) -> Result<Released, (Job, AllocError)> {
        self.recall();
        Core::finish(self, 0, job, state)
    }

    fn give_back(&mut self, job: Job) {
        Core::give_back(self, job)
    }
}
