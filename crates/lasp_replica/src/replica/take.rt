//! Jobs: what an evaluation of a derived variable needs, without the replica.

ghost use Rattle.std.specs.Prelude.{◌≡◌, ◌<◌, ◌≤◌, IfOk, OnOk, OnErr, IsTrue, IsFalse, Some, length, slice_get, drop, is_some};
ghost use Rattle.lasp_replica.specs.Prelude.{arc_value, of_rows, is_set, is_source, kind_at, IsDerived, rows_before, kind_of, held_of, held_at, second_of, has_two, first_input, second_input, entries_of, growths_at, log_at, IsReplica, HasStarted, HasStopped, AreShared, IsReadAt, IsSetAt, IsSetVar};
ghost use Rattle.lasp_replica.specs.Jobs.{IsTaken};

use super::Replica;
use super::least::has_two;
use crate::Job;
use crate::process::Process;
use lasp_graph::{Inputs, Kind};
use lasp_logset::{OrSet, RowList};
use lasp_state::State;
use std::alloc::AllocError;
use std::sync::Arc;

/// The same inputs, shared.
fn shared(inputs: &Inputs) -> Result<Inputs, AllocError>
    ensures { IfOk result (AreShared inputs.now) }
{
    let second = match &inputs.second {
        None => None,
        Some(state) => Some(Arc::try_clone(state)?),
    };
    Ok(Inputs {
        first: Arc::try_clone(&inputs.first)?,
        second,
    })
}

impl Replica {
    /// The rows of variable x that changed since the first n entries. Where all of them did, it shares the set's log.
    pub(super) fn changes(&self, x: u8, n: u64) -> Result<OrSet, AllocError>
        requires replica { IsReplica self.now }
        requires var { x < length (arc_value self.now.graph) }
        requires set { IsTrue (is_set (kind_at (arc_value self.now.graph) x)) }
        ensures { IfOk result (λ rows. rows ≡ of_rows (drop (rows_before (growths_at self.now x) n) (log_at self.now x))) }
    {
        let history = &self.histories[x as usize];
        if history.rows_before(n) > 0 {
            return history.since(self.allocator(), n);
        }
        match &**self.states.at(u64::from(x)) {
            State::Set(rows) => rows.past(),
            _ => unreachable!(),
        }
    }

    /// The same rows as a list. It costs a share of each, and what `History::list_since` does where not all of them changed.
    pub(super) fn changed_rows(&self, x: u8, n: u64) -> Result<RowList, AllocError>
        requires replica { IsReplica self.now }
        requires var { x < length (arc_value self.now.graph) }
        requires set { IsTrue (is_set (kind_at (arc_value self.now.graph) x)) }
        ensures { IfOk result (λ rows. rows ≡ of_rows (drop (rows_before (growths_at self.now x) n) (log_at self.now x))) }
    {
        let history = &self.histories[x as usize];
        if history.rows_before(n) > 0 {
            return history.list_since(self.allocator(), n);
        }
        match &**self.states.at(u64::from(x)) {
            State::Set(rows) => RowList::of_set(self.allocator(), rows),
            _ => unreachable!(),
        }
    }

    /// The inputs of a process of this kind as they are.
    pub(super) fn inputs(&self, kind: &Kind, x: u8, y: u8) -> Result<Inputs, AllocError>
        requires first { x < length self.now.states }
        requires second { y < length self.now.states }
        ensures first { IfOk result (λ i. held_of (arc_value i.first) ≡ held_at self.now.states x) }
        ensures second { IfOk result (λ i. IsTrue (has_two (kind_of kind.now)) → held_of (second_of i) ≡ held_at self.now.states y) }
        ensures one { IfOk result (λ i. IsFalse (has_two (kind_of kind.now)) → held_of (second_of i) ≡ held_at self.now.states x) }
        ensures two { IfOk result (λ i. is_some i.second ≡ has_two (kind_of kind.now)) }
    {
        let first = Arc::try_clone(self.states.at(u64::from(x)))?;
        let second = if has_two(kind) {
            Some(Arc::try_clone(self.states.at(u64::from(y)))?)
        } else {
            None
        };
        Ok(Inputs { first, second })
    }

    /// The inputs that a process last read: shared where they are kept, else made of the rows that had changed them by then, with an insertion for each.
    fn inputs_read(&self, var: u8, process: &Process) -> Result<Inputs, AllocError>
        requires replica { IsReplica self.now }
        requires var { slice_get self.now.processes.items var ≡ Some (Some process.now) }
        ensures { IfOk result (λ i. IsReadAt self.now var process.now.n i) }
    {
        match &process.base {
            Some(kept) => shared(kept),
            None => self.inputs_before(var, process),
        }
    }

    /// The same, where they aren't kept.
    fn inputs_before(&self, var: u8, process: &Process) -> Result<Inputs, AllocError>
        requires replica { IsReplica self.now }
        requires var { slice_get self.now.processes.items var ≡ Some (Some process.now) }
        ensures { IfOk result (λ i. IsReadAt self.now var process.now.n i) }
    {
        let kind = &self.graph.at(u64::from(var)).kind;
        match kind.inputs() {
            None => unreachable!(),
            Some((x, y)) => self.inputs_at(kind, x, y, process.n),
        }
    }

    /// The inputs of a process of this kind as they were after the first n entries.
    fn inputs_at(&self, kind: &Kind, x: u8, y: u8, n: u64) -> Result<Inputs, AllocError>
        requires replica { IsReplica self.now }
        requires early { n ≤ length (entries_of self.now) }
        requires first { IsSetVar self.now x }
        requires second { IsSetVar self.now y }
        ensures first { IfOk result (λ i. IsSetAt self.now n x (arc_value i.first)) }
        ensures second { IfOk result (λ i. IsTrue (has_two (kind_of kind.now)) → IsSetAt self.now n y (second_of i)) }
        ensures one { IfOk result (λ i. IsFalse (has_two (kind_of kind.now)) → IsSetAt self.now n x (second_of i)) }
        ensures two { IfOk result (λ i. is_some i.second ≡ has_two (kind_of kind.now)) }
    {
        let first = self.set_at(x, n)?;
        let second = if has_two(kind) {
            Some(self.set_at(y, n)?)
        } else {
            None
        };
        Ok(Inputs { first, second })
    }

    /// A set as it was after the first n entries. It costs an insertion for each row that it had.
    fn set_at(&self, x: u8, n: u64) -> Result<Arc<State>, AllocError>
        requires replica { IsReplica self.now }
        requires early { n ≤ length (entries_of self.now) }
        requires set { IsSetVar self.now x }
        ensures { IfOk result (λ s. IsSetAt self.now n x (arc_value s)) }
    {
        let rows = self.histories[x as usize].before(self.allocator(), n)?;
        Ok(Arc::new(self.allocator(), State::Set(rows))?)
    }

    /// A job of a derived variable.
    fn job(&self, var: u8, process: &Process) -> Result<Job, AllocError>
        requires replica { IsReplica self.now }
        requires var { slice_get self.now.processes.items var ≡ Some (Some process.now) }
        ensures { IfOk result (IsTaken self.now var) }
    {
        let kind = &self.graph.at(u64::from(var)).kind;
        match kind.inputs() {
            None => unreachable!(),
            Some((x, y)) => {
                let first = self.changes(x, process.n)?;
                let second = if has_two(kind) {
                    self.changes(y, process.n)?
                } else {
                    first.try_clone()?
                };
                Ok(Job::new(
                    var,
                    self.journal.len() as u64,
                    self.inputs(kind, x, y)?,
                    Arc::try_clone(&self.graph)?,
                    self.inputs_read(var, process)?,
                    Arc::try_clone(self.states.at(u64::from(var)))?,
                    first,
                    second,
                ))
            }
        }
    }

    /// A job of a derived variable, which is busy once more. Its inputs are first made cheap to share and to look up in. Where the variable was settled in place and the result of no job of it was taken in yet, it costs besides an insertion for each row that its inputs had then.
    pub fn take_var(&mut self, var: u8) -> Result<Job, AllocError>
        requires replica { IsReplica self.old }
        requires derived { IsDerived (arc_value self.old.graph) var }
        ensures job { IfOk result (IsTaken self.old var) }
        ensures ok { OnOk result (HasStarted var self.old self.new) }
        ensures err { OnErr result (self.new ≡ self.old) }
    {
        self.ready_inputs(var);
        self.take_ready(var)
    }

    /// The job, where its inputs are ready.
    fn take_ready(&mut self, var: u8) -> Result<Job, AllocError>
        requires replica { IsReplica self.old }
        requires derived { IsDerived (arc_value self.old.graph) var }
        ensures job { IfOk result (IsTaken self.old var) }
        ensures ok { OnOk result (HasStarted var self.old self.new) }
        ensures err { OnErr result (self.new ≡ self.old) }
    {
        match &self.processes[var as usize] {
            None => unreachable!(),
            Some(process) => {
                let job = self.job(var, process)?;
                self.start(var);
                Ok(job)
            }
        }
    }

    /// Variable y is busy once more.
    fn start(&mut self, var: u8)
        requires replica { IsReplica self.old }
        requires derived { IsDerived (arc_value self.old.graph) var }
        ensures { HasStarted var self.old self.new }
    {
        if let Some(process) = &mut self.processes[var as usize] {
            process.busy = process.busy.saturating_add(1);
        }
    }

    /// Variable y is busy once less.
    pub fn stop(&mut self, var: u8)
        requires replica { IsReplica self.old }
        requires derived { IsDerived (arc_value self.old.graph) var }
        ensures { HasStopped var self.old self.new }
    {
        if let Some(process) = &mut self.processes[var as usize] {
            process.busy = process.busy.saturating_sub(1);
        }
    }
}
