//! The core of a replica, as callers see it.

ghost use Rattle.std.specs.Prelude.{◌≡◌, ◌+◌, ◌<◌, ◌≤◌, ◌^◌, ◌↔◌, [], Err, IfOk, IfErr, OnOk, OnErr, IfSome, IfNone, IsTrue, is_some, length, take, slice_get, Some, vec_capacity, ℕ};
ghost use Rattle.lasp_core.specs.Prelude.{arc_value, count_at, IsContentAtMost, suits, meets, kind_at, equation, eval, ContentsAtMost, IsDerived, variable_limit, IsClean, base, entry, entered, op_of, threshold_of, decl_of, contents_of, held_at, number_by, read_of, entry_of, IsSmall, IsSuited, BringsNothing, update_refusal, IsAnswered, IsDelivered, BringsAsMuch, IsUnclean, IsFirst, IsNext, Lacks, IsJobOf, IsJobNow, IsResultOf, fresh_core, IsOpen, opened_read, opened, looked, HasLeast, closed, rows_of, taken, returned, owing, rows_in, row_limit, size_of, library_of, FitsAll, IsUnread, IsSettled, declared, IsStateOf, AreOfKind, AreAscending, AreInOrder, AreStatesSince};
ghost use Rattle.model_graph.specs.Lawful.{shape_of};
ghost use Rattle.model_readings.specs.Lawful.{IsNext as MayFollow};
ghost use Rattle.model_journal.specs.Entry as model;
ghost use Rattle.model_journal.specs.Journal as journal;
ghost use Rattle.model_core.specs.Core as plain;
ghost use Rattle.lasp_fns.specs.Steps as counted;
ghost use Rattle.lasp_state.specs.State as state;

use crate::look::is_met_by;
use crate::parked::{remove_read, split_met};
use crate::read::{ReadNo, Released};
use crate::upkeep::{ready_read, ready_reads};
use lasp_fns::StepLib;
use lasp_graph::{Decl, EvalRefused, Graph, States};
use lasp_replica::{DeliverRefused, Entry, GivenUp, Job, NotYet, Replica, Unread, UpdateRefused};
use lasp_state::{Op, State, Threshold};
use lasp_wire::{Counts, Message};
use model_core::first_entries_stand_below;
use model_journal::{
    clean_variables_equal_their_equations, derived_contents_stay_below_evaluation,
};
use std::alloc::{AllocError, Global};
use std::marker::Model;
use std::sync::Arc;

/// One replica, seen as what never changes of it (the graph that it opened with, its number, the number of nodes), its journal, its parked reads, how many jobs of each variable are out, how many reads were opened, and how many changed rows its jobs had.
#[derive(Drop)]
pub struct Core {
    replica: Replica,
    parked: Vec<ReadNo>,
    opened: u64,
    owed: u64,
}

impl Model for Core {
    ghost use Rattle.model_core.specs.Core as plain;
    ghost use Rattle.lasp_core.specs.Coded.{coded_core};
    ghost use Rattle.lasp_core.specs.Core.{core_of, IsSound};

    ghost Value = { plain.Core };

    ghost coded = { coded_core };

    ghost view = { λ a. core_of a.replica a.parked.items a.opened a.owed };

    ghost invariant = { λ a. IsSound a.replica a.parked.items a.opened };
}

impl Core {
    /// The core of replica `me` of so many nodes, at most 8, to which nothing has happened.
    pub fn new(alloc: Global, graph: Arc<Graph>, me: u8, nodes: u8) -> Result<Core, AllocError>
        requires member { me < nodes }
        requires few { nodes ≤ 8 }
        ensures { IfOk result (λ c. c ≡ fresh_core (arc_value graph) me nodes) }
    {
        Ok(Core {
            replica: Replica::new(alloc, graph, me, nodes)?,
            parked: Vec::new(alloc),
            opened: 0,
            owed: 0,
        })
    }

    /// Room for as many reads as are parked.
    fn room(&self) -> Result<Vec<ReadNo>, AllocError>
        ensures empty { IfOk result (λ reads. reads.items ≡ []) }
        ensures room { IfOk result (λ reads. length self.now.parked ≤ vec_capacity reads) }
    {
        Vec::with_capacity(self.replica.allocator(), self.parked.len())
    }

    /// Updates a source: what the operation joins in is joined into the variable, and the update is counted.
    pub fn update(&mut self, by: u64, var: u8, op: &Op) -> Result<Released, UpdateRefused>
        requires small { IsSmall self.old.frame.nodes op.now }
        ensures ok { OnOk result (self.new ≡ entered (entry by (model.Update var (op_of op.now))) self.old) }
        ensures released { IfOk result (λ reads. reads ≡ plain.released (entry by (model.Update var (op_of op.now))) self.old) }
        ensures ascending { IfOk result AreAscending }
        ensures err { OnErr result (self.new ≡ self.old) }
        ensures answer { IsAnswered (update_refusal self.old.frame.nodes self.old.frame.replica (journal.graph self.old.frame self.old.entries) (journal.vals self.old.frame self.old.entries) (journal.counts self.old.frame self.old.entries) var op.now) result }
    {
        self.update_with(by, var, op, false)
    }

    /// The same. Where it is known that what the variable holds stays as it is, as by a state that it holds already, no row is looked at.
    pub fn update_with(
        &mut self,
        by: u64,
        var: u8,
        op: &Op,
        is_known: bool,
    ) -> Result<Released, UpdateRefused>
        requires small { IsSmall self.old.frame.nodes op.now }
        requires known { IsTrue is_known → BringsNothing (journal.val self.old.frame self.old.entries var) (journal.counts self.old.frame self.old.entries) self.old.frame.replica (op_of op.now) }
        ensures ok { OnOk result (self.new ≡ entered (entry by (model.Update var (op_of op.now))) self.old) }
        ensures released { IfOk result (λ reads. reads ≡ plain.released (entry by (model.Update var (op_of op.now))) self.old) }
        ensures ascending { IfOk result AreAscending }
        ensures err { OnErr result (self.new ≡ self.old) }
        ensures answer { IsAnswered (update_refusal self.old.frame.nodes self.old.frame.replica (journal.graph self.old.frame self.old.entries) (journal.vals self.old.frame self.old.entries) (journal.counts self.old.frame self.old.entries) var op.now) result }
    {
        ready_reads(&mut self.replica, self.parked.as_slice());
        let mut released = self.room()?;
        let n = self.replica.journal.len() as u64;
        self.replica.update_with(by, var, op, is_known)?;
        split_met(&self.replica, n, &mut self.parked, &mut released);
        Ok(Released::of(released))
    }

    /// Joins a message in: each of its sources into the variable of its place among the sources, and its counts.
    pub fn deliver(
        &mut self,
        by: u64,
        number: u32,
        message: &Arc<Message>,
    ) -> Result<Released, DeliverRefused>
        ensures ok { OnOk result (self.new ≡ entered (entry by (model.Deliver number (arc_value message.now))) self.old) }
        ensures released { IfOk result (λ reads. reads ≡ plain.released (entry by (model.Deliver number (arc_value message.now))) self.old) }
        ensures ascending { IfOk result AreAscending }
        ensures err { OnErr result (self.new ≡ self.old) }
        ensures answer { IsDelivered self.old.frame.nodes (journal.graph self.old.frame self.old.entries) (journal.vals self.old.frame self.old.entries) (arc_value message.now) result }
    {
        self.deliver_part(by, number, message, message)
    }

    /// Joins a message in by one that brings as much to what is there, and is looked at for rows in its place: it costs what the other one has. The message itself is such a one. So is one of its counts without sources, where both are of one run and the core counts all that the message counts.
    pub fn deliver_part(
        &mut self,
        by: u64,
        number: u32,
        message: &Arc<Message>,
        part: &Message,
    ) -> Result<Released, DeliverRefused>
        requires { BringsAsMuch (journal.graph self.old.frame self.old.entries) (journal.vals self.old.frame self.old.entries) (arc_value message.now) part.now }
        ensures ok { OnOk result (self.new ≡ entered (entry by (model.Deliver number (arc_value message.now))) self.old) }
        ensures released { IfOk result (λ reads. reads ≡ plain.released (entry by (model.Deliver number (arc_value message.now))) self.old) }
        ensures ascending { IfOk result AreAscending }
        ensures err { OnErr result (self.new ≡ self.old) }
        ensures answer { IsDelivered self.old.frame.nodes (journal.graph self.old.frame self.old.entries) (journal.vals self.old.frame self.old.entries) (arc_value message.now) result }
    {
        ready_reads(&mut self.replica, self.parked.as_slice());
        let mut released = self.room()?;
        let n = self.replica.journal.len() as u64;
        self.replica.deliver_part(by, number, message, part)?;
        split_met(&self.replica, n, &mut self.parked, &mut released);
        Ok(Released::of(released))
    }

    /// Declares a variable behind the others.
    pub fn extend(&mut self, by: u64, decl: &Decl) -> Result<(), AllocError>
        requires room { length (journal.graph self.old.frame self.old.entries) < variable_limit }
        requires next { MayFollow (journal.graph self.old.frame self.old.entries) (decl_of decl.now) }
        ensures ok { OnOk result (self.new ≡ declared (entry by (model.Extend (decl_of decl.now))) self.old) }
        ensures err { OnErr result (self.new ≡ self.old) }
    {
        self.replica.extend(by, decl)
    }

    /// A job of the least derived variable that is neither clean nor busy, or else of the least one that isn't clean; none where all are clean.
    pub fn take(&mut self) -> Result<Option<Job>, AllocError>
        ensures none { IfOk result (λ found. IfNone found (IsSettled self.old)) }
        ensures same { IfOk result (λ found. IfNone found (self.new ≡ self.old)) }
        ensures next { IfOk result (λ found. IfSome found (λ job. IsNext self.old.frame self.old.entries self.old.busy job.var)) }
        ensures job { IfOk result (λ found. IfSome found (λ job. IsJobNow self.old.frame self.old.entries job.var job)) }
        ensures taken { IfOk result (λ found. IfSome found (λ job. self.new ≡ taken job.var (rows_of job) self.old)) }
        ensures err { OnErr result (self.new ≡ self.old) }
    {
        match self.replica.next_var() {
            None => Ok(None),
            Some(var) => Ok(Some(self.take_var(var)?)),
        }
    }

    /// A job of a derived variable, which is busy once more.
    pub fn take_var(&mut self, var: u8) -> Result<Job, AllocError>
        requires { IsDerived (journal.graph self.old.frame self.old.entries) var }
        ensures job { IfOk result (λ job. IsJobNow self.old.frame self.old.entries var job) }
        ensures taken { IfOk result (λ job. self.new ≡ taken var (rows_of job) self.old) }
        ensures err { OnErr result (self.new ≡ self.old) }
    {
        let job = self.replica.take_var(var)?;
        self.owed = self.owed.saturating_add(job.changed_rows());
        Ok(job)
    }

    /// The rows that changed in the inputs of a derived variable since it last read them. They are counted as those of a job.
    pub fn unread(&mut self, var: u8) -> Result<Unread, AllocError>
        requires { IsDerived (journal.graph self.old.frame self.old.entries) var }
        ensures unread { IfOk result (IsUnread self.old.frame self.old.entries var) }
        ensures counted { IfOk result (λ unread. self.new ≡ owing (rows_in unread) self.old) }
        ensures err { OnErr result (self.new ≡ self.old) }
    {
        let unread = self.replica.unread(var)?;
        self.owed = self.owed.saturating_add(unread.rows());
        Ok(unread)
    }

    /// Brings a derived variable up to its inputs in place: it does what a job does that is taken, evaluated and finished at once, and makes no state and no shares of any.
    pub fn settle_var(
        &mut self,
        by: u64,
        var: u8,
        unread: &Unread,
        lib: &mut StepLib,
    ) -> Result<Released, EvalRefused>
        requires derived { IsDerived (journal.graph self.old.frame self.old.entries) var }
        requires unread { IsUnread self.old.frame self.old.entries var unread.now }
        requires fits { FitsAll (library_of (counted.library_of lib.old)) (journal.graph self.old.frame self.old.entries) }
        ensures ok { OnOk result (self.new ≡ entered (entry by (model.Bind var (length self.old.entries))) self.old) }
        ensures released { IfOk result (λ reads. reads ≡ plain.released (entry by (model.Bind var (length self.old.entries))) self.old) }
        ensures ascending { IfOk result AreAscending }
        ensures err { OnErr result (self.new ≡ self.old) }
        ensures large { result ≡ Err EvalRefused.TooManyRows → row_limit < size_of (equation (kind_at (journal.graph self.old.frame self.old.entries) var) (journal.vals self.old.frame self.old.entries)) }
        ensures library { counted.library_of lib.new ≡ counted.library_of lib.old }
        ensures ticks { counted.ticks_of lib.new ≤ counted.ticks_of lib.old + length unread.now.first }
    {
        ready_reads(&mut self.replica, self.parked.as_slice());
        let mut released = self.room()?;
        let n = self.replica.journal.len() as u64;
        self.replica.settle_var(by, var, unread, lib)?;
        split_met(&self.replica, n, &mut self.parked, &mut released);
        Ok(Released::of(released))
    }

    /// Takes in the result of a job.
    pub fn finish(&mut self, by: u64, job: Job, state: State) -> Result<Released, (Job, AllocError)>
        requires job { IsJobOf self.old.frame self.old.entries job }
        requires result { IsResultOf self.old.frame self.old.entries job state }
        ensures ok { OnOk result (self.new ≡ returned job.var (entered (entry by (model.Bind job.var job.n)) self.old)) }
        ensures released { IfOk result (λ reads. reads ≡ plain.released (entry by (model.Bind job.var job.n)) self.old) }
        ensures ascending { IfOk result AreAscending }
        ensures err { OnErr result (self.new ≡ self.old) }
        ensures back { IfErr result (λ e. e.0 ≡ job) }
    {
        ready_reads(&mut self.replica, self.parked.as_slice());
        match self.room() {
            Err(error) => Err((job, error)),
            Ok(mut released) => {
                let n = self.replica.journal.len() as u64;
                self.replica.finish(by, job, state)?;
                split_met(&self.replica, n, &mut self.parked, &mut released);
                Ok(Released::of(released))
            }
        }
    }

    /// Takes a job back that wasn't done: its variable is busy once less.
    pub fn give_back(&mut self, job: Job)
        requires { IsDerived (journal.graph self.old.frame self.old.entries) job.var }
        ensures { self.new ≡ returned job.var self.old }
    {
        self.take_back(job.give_up())
    }

    /// Takes back what is left of a job that was given up: its variable is busy once less.
    pub fn take_back(&mut self, job: GivenUp)
        requires { IsDerived (journal.graph self.old.frame self.old.entries) job.var }
        ensures { self.new ≡ returned job.var self.old }
    {
        let GivenUp { var } = job;
        self.replica.stop(var);
    }

    /// Whether a derived variable has taken in its inputs as they are.
    pub fn is_clean(&self, var: u8) -> bool
        requires { IsDerived (journal.graph self.now.frame self.now.entries) var }
        ensures { IsTrue result ↔ IsClean self.now.frame self.now.entries var }
    {
        self.replica.is_clean(var as usize)
    }

    /// The length of the journal, where every derived variable has taken in its inputs as they are.
    pub fn check_settled(&self) -> Result<u64, NotYet>
        ensures settled { OnOk result (IsSettled self.now) }
        ensures evaluated { OnOk result (journal.vals self.now.frame self.now.entries ≡ eval (journal.graph self.now.frame self.now.entries) (journal.sources self.now.frame self.now.entries)) }
        ensures length { IfOk result (λ n. n ≡ length self.now.entries) }
        ensures first { IfErr result (λ why. IsFirst (IsUnclean self.now.frame self.now.entries) why.var) }
        ensures lacks { IfErr result (λ why. Lacks self.now.frame self.now.entries why.var why) }
    {
        self.recall_states();
        match self.replica.first_unclean() {
            None => Ok(self.journal_len()),
            Some(var) => Err(self.replica.lacking(var)),
        }
    }

    /// Opens a read. It is parked where its variable hasn't come to the threshold.
    pub fn open_read(&mut self, var: u8, threshold: Threshold) -> Result<ReadNo, AllocError>
        requires { IsOpen self.old.frame self.old.entries (opened_read self.old var (threshold_of threshold)) }
        ensures read { IfOk result (λ r. read_of r ≡ opened_read self.old var (threshold_of threshold)) }
        ensures ok { OnOk result (self.new ≡ opened (opened_read self.old var (threshold_of threshold)) self.old) }
        ensures err { OnErr result (self.new ≡ self.old) }
    {
        self.open_read_with(var, threshold, false)
    }

    /// The same. Where the variable is known to hold what the threshold asks for at least, that isn't asked again.
    pub fn open_read_with(
        &mut self,
        var: u8,
        threshold: Threshold,
        is_known: bool,
    ) -> Result<ReadNo, AllocError>
        requires open { IsOpen self.old.frame self.old.entries (opened_read self.old var (threshold_of threshold)) }
        requires known { IsTrue is_known → HasLeast (threshold_of threshold) (journal.val self.old.frame self.old.entries var) }
        ensures read { IfOk result (λ r. read_of r ≡ opened_read self.old var (threshold_of threshold)) }
        ensures ok { OnOk result (self.new ≡ opened (opened_read self.old var (threshold_of threshold)) self.old) }
        ensures err { OnErr result (self.new ≡ self.old) }
    {
        let alloc = self.replica.allocator();
        let read = ReadNo {
            number: self.opened,
            var,
            threshold: Arc::new(alloc, threshold)?,
            place: 0,
            is_lacking: false,
        };
        ready_read(&mut self.replica, var, &read.threshold);
        if !is_met_by(&read.threshold, self.state(var), is_known) {
            self.parked.push(read.twin()?)?;
        }
        self.opened = self.opened.saturating_add(1);
        Ok(read)
    }

    /// The state of a read's variable, where it has come to the threshold.
    pub fn poll_read(&self, read: &ReadNo) -> Result<Option<Arc<State>>, AllocError>
        requires { IsOpen self.now.frame self.now.entries (read_of read.now) }
        ensures met { IfOk result (λ found. is_some found ≡ plain.is_met self.now.frame self.now.entries (read_of read.now)) }
        ensures state { IfOk result (λ found. IfSome found (λ s. IsStateOf self.now (read_of read.now).var (arc_value s))) }
    {
        if read.threshold.meets(self.state(read.var)) {
            Ok(Some(Arc::try_clone(self.state(read.var))?))
        } else {
            Ok(None)
        }
    }

    /// Whether a variable has come to a threshold, asked by a read that is open for that long alone. Where the variable is known to hold what the threshold asks for at least, that isn't asked again.
    pub fn look(&mut self, var: u8, threshold: &Threshold, is_known: bool) -> bool
        requires open { IsOpen self.old.frame self.old.entries (opened_read self.old var (threshold_of threshold.now)) }
        requires known { IsTrue is_known → HasLeast (threshold_of threshold.now) (journal.val self.old.frame self.old.entries var) }
        ensures met { result ≡ meets (threshold_of threshold.now) (journal.val self.old.frame self.old.entries var) }
        ensures looked { self.new ≡ looked self.old }
    {
        ready_read(&mut self.replica, var, threshold);
        let met = is_met_by(threshold, self.state(var), is_known);
        remove_read(&mut self.parked, self.opened);
        self.opened = self.opened.saturating_add(1);
        met
    }

    /// Closes a read: no call releases it any more. Where its number isn't parked nothing happens.
    pub fn close_read(&mut self, read: &ReadNo)
        ensures { self.new ≡ closed (read_of read.now).number self.old }
    {
        remove_read(&mut self.parked, read.number);
    }

    /// Sees that a pass over a variable's rows in their order costs little more than a comparison for each, where nobody shares its state. It costs a look at 64 places, and where many rows stand out of order an insertion for each.
    pub fn order_rows(&mut self, var: u8)
        ensures { self.new ≡ self.old }
    {
        self.replica.order_rows(var)
    }

    /// The state of a variable.
    pub fn state(&self, var: u8) -> &Arc<State>
        requires { var < length (journal.graph self.now.frame self.now.entries) }
        ensures { IsStateOf self.now var (arc_value result.now) }
    {
        self.replica.states.at(u64::from(var))
    }

    /// The states of all variables.
    pub fn states(&self) -> &States
        ensures contents { contents_of result.now ≡ journal.vals self.now.frame self.now.entries }
        ensures kinds { AreOfKind self.now.frame.nodes (journal.graph self.now.frame self.now.entries) result.now }
        ensures numbers { (y : ℕ) → IsDerived (journal.graph self.now.frame self.now.entries) y → (held_at result.now y).number ≡ number_by (kind_at (journal.graph self.now.frame self.now.entries) y) (held_at result.now y).content }
    {
        &self.replica.states
    }

    /// The states, of each source that is a set the rows alone that changed since the journal's first n entries. It costs an insertion for each of these rows, which are shared, and a look at each growth of a set since.
    pub fn states_since(&self, n: u64) -> Result<States, AllocError>
        requires { n ≤ length self.now.entries }
        ensures { IfOk result (AreStatesSince self.now.frame self.now.entries n) }
    {
        self.replica.states_since(n)
    }

    /// How many updates of each replica it knows.
    pub fn counts(&self) -> &Counts
        ensures { result.now ≡ journal.counts self.now.frame self.now.entries }
    {
        &self.replica.counts
    }

    /// The length of the journal.
    pub fn journal_len(&self) -> u64
        ensures length { result ≡ length self.now.entries }
        ensures small { result < 2 ^ 63 }
    {
        self.replica.journal.len() as u64
    }

    /// The entry at a place of the journal, counted from 0. The operation of an update is one for its variable: a state that it joins in is of the variable's kind.
    pub fn entry_at(&self, i: u64) -> &Entry
        requires { i < length self.now.entries }
        ensures entry { slice_get self.now.entries i ≡ Some (entry_of result.now) }
        ensures suited { IsSuited self.now.frame.nodes (journal.graph self.now.frame self.now.entries) result.now }
    {
        &self.replica.journal[i as usize]
    }

    /// The graph with all that was declared.
    pub fn graph(&self) -> &Arc<Graph>
        ensures { arc_value result.now ≡ journal.graph self.now.frame self.now.entries }
    {
        &self.replica.graph
    }

    /// Recalls, at no cost, what holds of every core: its journal is legal, its sources may stand in messages, no parked read's variable has come to the threshold, the parked reads stand in the order in which they were opened, and there is a count of jobs that are out for each variable.
    pub fn recall(&self)
        ensures core { plain.IsCore self.now }
        ensures order { AreInOrder self.now.opened self.now.parked }
        ensures busy { length self.now.busy ≡ length (journal.graph self.now.frame self.now.entries) }
    {
        let _ = &self.replica;
    }

    /// Recalls, at no cost, what holds of the states whatever came, and in whatever order: each variable only grows; a derived one is its process on the inputs that were last bound, and no derived one exceeds its process on the present inputs, nor plain evaluation of the sources; a clean one equals its process, and where all are clean, all are what plain evaluation gives.
    pub fn recall_states(&self)
        ensures grows { (n : ℕ) → ContentsAtMost (journal.vals self.now.frame (take n self.now.entries)) (journal.vals self.now.frame self.now.entries) }
        ensures based { (y : ℕ) → IsDerived (journal.graph self.now.frame self.now.entries) y → journal.val self.now.frame self.now.entries y ≡ equation (kind_at (journal.graph self.now.frame self.now.entries) y) (journal.vals self.now.frame (take (base self.now.frame self.now.entries y) self.now.entries)) }
        ensures bounded { (y : ℕ) → IsDerived (journal.graph self.now.frame self.now.entries) y → IsContentAtMost (journal.val self.now.frame self.now.entries y) (equation (kind_at (journal.graph self.now.frame self.now.entries) y) (journal.vals self.now.frame self.now.entries)) }
        ensures below { ContentsAtMost (journal.vals self.now.frame self.now.entries) (eval (journal.graph self.now.frame self.now.entries) (journal.sources self.now.frame self.now.entries)) }
        ensures clean { (y : ℕ) → IsDerived (journal.graph self.now.frame self.now.entries) y → IsClean self.now.frame self.now.entries y → journal.val self.now.frame self.now.entries y ≡ equation (kind_at (journal.graph self.now.frame self.now.entries) y) (journal.vals self.now.frame self.now.entries) }
        ensures settled { IsSettled self.now → journal.vals self.now.frame self.now.entries ≡ eval (journal.graph self.now.frame self.now.entries) (journal.sources self.now.frame self.now.entries) }
    {
        self.recall();
        first_entries_stand_below();
        derived_contents_stay_below_evaluation();
        clean_variables_equal_their_equations();
    }

    /// The number of reads that are parked.
    pub fn parked_len(&self) -> u64
        ensures { result ≡ length self.now.parked }
    {
        self.parked.len() as u64
    }

    /// The read at a place of the parked list, counted from 0.
    pub fn parked_at(&self, i: u64) -> &ReadNo
        requires { i < length self.now.parked }
        ensures { slice_get self.now.parked i ≡ Some (read_of result.now) }
    {
        &self.parked[i as usize]
    }

    /// How many changed rows the jobs had that were handed out, held at the greatest number of 64 bits.
    pub fn owed(&self) -> u64
        ensures { result ≡ self.now.owed }
    {
        self.owed
    }
}
