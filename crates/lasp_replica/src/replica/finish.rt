//! Results of jobs.

ghost use Rattle.std.specs.Prelude.{◌≡◌, ◌<◌, ◌≤◌, IfOk, OnOk, OnErr, IfErr, IsTrue, IsFalse, IsSome, ◌++◌, ◌∷◌, [], length, map, take, slice_set, slice_index_or, Some, None, vec_len, vec_capacity};
ghost use Rattle.lasp_replica.specs.Prelude.{arc_value, changed, size_of, row_limit, kind_at, equation, IsDerived, graph, vals, base, content_of, held_at, frame_of, entries_of, told, seen_process, jobs_of, IsReplica, Stays, IsJobOf, IsResultOf, HasBound, HasRows, AreNewsOf, IsAlike, HasRoom, AreShared, base_on};
ghost use Rattle.lasp_state.specs.State.{shape_of};

use super::Replica;
use super::sizes::{is_set, new_rows};
use super::update::record_growth;
use crate::Job;
use crate::entry::{Act, Entry};
use crate::process::Process;
use lasp_graph::Inputs;
use lasp_logset::OrSet;
use lasp_state::State;
use std::alloc::{AllocError, Global};
use std::sync::Arc;

/// The rows of a set, or of the set that a fold covers.
pub(super) fn rows_of(state: &State) -> &OrSet
    requires { HasRows (shape_of state.now) }
    ensures { result.now ≡ (content_of state.now).rows }
{
    match state {
        State::Set(rows) => rows,
        State::Fold(rows, _) => rows,
        _ => unreachable!(),
    }
}

/// Writes an entry down, for which the memory is there.
pub(super) fn write_down(journal: &mut Vec<Entry>, entry: Entry)
    requires { vec_len journal.old < vec_capacity journal.old }
    ensures { journal.new.items ≡ journal.old.items ++ entry ∷ [] }
{
    let _ = journal.push(entry);
}

/// An equal state without tables.
fn past_of(alloc: Global, state: &State) -> Result<Arc<State>, AllocError>
    ensures { IfOk result (λ past. arc_value past ≡ state.now) }
{
    let past = state.past()?;
    Ok(Arc::new(alloc, past)?)
}

/// The same inputs without tables, to be kept while their variables go on growing.
pub(super) fn past_inputs(alloc: Global, inputs: &Inputs) -> Result<Inputs, AllocError>
    ensures { IfOk result (AreShared inputs.now) }
{
    let second = match &inputs.second {
        None => None,
        Some(state) => Some(past_of(alloc, state)?),
    };
    Ok(Inputs {
        first: past_of(alloc, &inputs.first)?,
        second,
    })
}

/// What is made for the result of a job before it is taken in.
#[derive(Drop)]
struct Ready {
    /// Whether the variable grows by it.
    grows: bool,
    /// The result, shared.
    state: Arc<State>,
    /// The job's inputs, to be kept.
    base: Inputs,
}

/// The process of a derived variable has read these inputs, which are kept, or has read when so many entries stood.
pub(super) fn rebase(processes: &mut Vec<Option<Process>>, var: u8, n: u64, inputs: Option<Inputs>)
    requires within { var < length processes.old.items }
    requires derived { IsSome (slice_index_or processes.old.items var None) }
    ensures bases { map seen_process processes.new.items ≡ slice_set (map seen_process processes.old.items) var (Some (base_on n inputs)) }
    ensures busy { map jobs_of processes.new.items ≡ map jobs_of processes.old.items }
{
    if let Some(process) = &mut processes[var as usize] {
        process.n = n;
        process.base = inputs;
    }
}

impl Replica {
    /// The rows that a variable gains by the result of a job.
    fn gained(&self, job: &Job, state: &State) -> Result<OrSet, AllocError>
        requires replica { IsReplica self.now }
        requires job { IsJobOf (frame_of self.now) (entries_of self.now) job.now }
        requires result { IsResultOf (frame_of self.now) (entries_of self.now) job.now state.now }
        ensures { IfOk result (λ rows. rows ≡ changed (held_at self.now.states job.now.var).content.rows (content_of state.now).rows) }
    {
        let present = rows_of(self.states.at(u64::from(job.var)));
        match &job.gain {
            Some(rows) => {
                rows.ascends();
                new_rows(self.allocator(), present, rows)
            }
            None => new_rows(self.allocator(), present, rows_of(state)),
        }
    }

    /// Whether a variable grows by the result of a job, and the rows that it gains if it is a set.
    fn news(&self, job: &Job, state: &State) -> Result<(bool, OrSet), AllocError>
        requires replica { IsReplica self.now }
        requires job { IsJobOf (frame_of self.now) (entries_of self.now) job.now }
        requires result { IsResultOf (frame_of self.now) (entries_of self.now) job.now state.now }
        ensures { IfOk result (λ news. AreNewsOf (held_at self.now.states job.now.var) state.now news.0 news.1) }
    {
        let rows = self.gained(job, state)?;
        let grows = rows.rows() > 0;
        if is_set(state) {
            return Ok((grows, rows));
        }
        Ok((grows, rows.empty()))
    }

    /// How many entries the process of a derived variable last read.
    pub(super) fn base_of(&self, var: u8) -> u64
        requires replica { IsReplica self.now }
        requires derived { IsDerived (arc_value self.now.graph) var }
        ensures { result ≡ base (frame_of self.now) (entries_of self.now) var }
    {
        match &self.processes[var as usize] {
            None => 0,
            Some(process) => process.n,
        }
    }

    /// Takes in the result of a job. All memory is taken before anything changes.
    pub fn finish(&mut self, by: u64, job: Job, state: State) -> Result<(), (Job, AllocError)>
        requires replica { IsReplica self.old }
        requires job { IsJobOf (frame_of self.old) (entries_of self.old) job }
        requires result { IsResultOf (frame_of self.old) (entries_of self.old) job state }
        ensures ok { OnOk result (HasBound by job.var job.n self.old self.new) }
        ensures err { OnErr result (Stays self.old self.new) }
        ensures back { IfErr result (λ e. e.0 ≡ job) }
    {
        if job.n <= self.base_of(job.var) {
            return self.finish_late(by, job);
        }
        match self.ready(&job, state) {
            Err(error) => Err((job, error)),
            Ok(ready) => {
                self.bind(by, job, ready);
                Ok(())
            }
        }
    }

    /// The memory that the result of a job needs.
    fn ready(&mut self, job: &Job, state: State) -> Result<Ready, AllocError>
        requires replica { IsReplica self.old }
        requires job { IsJobOf (frame_of self.old) (entries_of self.old) job.now }
        requires result { IsResultOf (frame_of self.old) (entries_of self.old) job.now state }
        ensures same { IsAlike self.old self.new }
        ensures room { IfOk result (λ made. HasRoom job.now.var state made.grows self.new) }
        ensures state { IfOk result (λ made. arc_value made.state ≡ state) }
        ensures base { IfOk result (λ made. AreShared job.now.inputs made.base) }
    {
        let (grows, rows) = self.news(job, &state)?;
        self.histories[job.var as usize].prepare(&rows)?;
        self.journal.reserve(1)?;
        let base = past_inputs(self.allocator(), &job.inputs)?;
        let state = Arc::new(self.allocator(), state)?;
        Ok(Ready { grows, state, base })
    }

    /// Takes in the result of a job for which the memory is there. The job ends first, so that what it shared can be written in place.
    fn bind(&mut self, by: u64, job: Job, ready: Ready)
        requires replica { IsReplica self.old }
        requires job { IsJobOf (frame_of self.old) (entries_of self.old) job }
        requires result { IsResultOf (frame_of self.old) (entries_of self.old) job (arc_value ready.state) }
        requires later { base (frame_of self.old) (entries_of self.old) job.var < job.n }
        requires room { HasRoom job.var (arc_value ready.state) ready.grows self.old }
        requires base { AreShared job.inputs ready.base }
        ensures { HasBound by job.var job.n self.old self.new }
    {
        let parts = job.into_parts();
        let var = parts.var;
        let n = parts.n;
        drop(parts);
        self.states.replace(u64::from(var), ready.state);
        self.states.gather_at(u64::from(var));
        let entry = self.journal.len() as u64;
        record_growth(&mut self.histories, var, ready.grows, entry);
        write_down(
            &mut self.journal,
            Entry {
                by,
                what: Act::Bind(var, n),
            },
        );
        rebase(&mut self.processes, var, n, Some(ready.base));
        self.stop(var);
    }

    /// Takes in the result of a job whose variable has read as much already.
    fn finish_late(&mut self, by: u64, job: Job) -> Result<(), (Job, AllocError)>
        requires replica { IsReplica self.old }
        requires job { IsJobOf (frame_of self.old) (entries_of self.old) job }
        requires late { job.n ≤ base (frame_of self.old) (entries_of self.old) job.var }
        requires small { size_of (equation (kind_at (graph (frame_of self.old) (entries_of self.old)) job.var) (vals (frame_of self.old) (take job.n (entries_of self.old)))) ≤ row_limit }
        ensures ok { OnOk result (HasBound by job.var job.n self.old self.new) }
        ensures err { OnErr result (Stays self.old self.new) }
        ensures back { IfErr result (λ e. e.0 ≡ job) }
    {
        if let Err(error) = self.journal.reserve(1) {
            return Err((job, error));
        }
        let parts = job.into_parts();
        write_down(
            &mut self.journal,
            Entry {
                by,
                what: Act::Bind(parts.var, parts.n),
            },
        );
        self.stop(parts.var);
        Ok(())
    }
}
