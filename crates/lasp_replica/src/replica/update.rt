//! Updates of a replica's sources.

ghost use Rattle.std.specs.Prelude.{◌≡◌, ℕ, ◌<◌, IfOk, OnOk, OnErr, Ok, Err, IsTrue, FitsSigned, length, map};
ghost use Rattle.lasp_replica.specs.Prelude.{arc_value, kind_at, is_source, is_shape, vals, counts, entry, op_of, kind_of, contents_of, held_of, held_at, AreJoinable, AreBelow, IsInFormat, IsGain, IsPrepared, recorded, IsReplica, Goes, Stays, IsSmall, shape_for, is_for, update_refusal, IsAnswered, update_check, refused, told, kept_at};
ghost use mir.Syntax.{w64};
ghost use Rattle.model_graph.specs.Lawful.{shape_of};
ghost use Rattle.model_journal.specs.Entry as model;
ghost use Rattle.lasp_state.specs.State as state;

use super::sizes::{brought, fits, grows_by, news};
use super::{MOST_UPDATES, Replica};
use crate::History;
use crate::entry::{Act, Entry};
use crate::refused::UpdateRefused;
use lasp_graph::Kind;
use lasp_state::{Op, State};
use lasp_wire::recall_value;
use std::alloc::{AllocError, Global};
use std::sync::Arc;

/// A copy of an operation; a state that is joined in is shared.
pub(super) fn copied(alloc: Global, op: &Op) -> Result<Op, AllocError>
    ensures op { IfOk result (λ o. op_of o ≡ op_of op.now) }
    ensures shape { IfOk result (λ o. (nodes : ℕ) → shape_for nodes o ≡ shape_for nodes op.now) }
{
    match op {
        Op::Add(value) => Ok(Op::Add(value.try_clone(alloc)?)),
        Op::Remove(value) => Ok(Op::Remove(value.try_clone(alloc)?)),
        Op::Insert(value) => Ok(Op::Insert(value.try_clone(alloc)?)),
        Op::Inc(by) => Ok(Op::Inc(*by)),
        Op::Max(number) => Ok(Op::Max(*number)),
        Op::Join(state) => Ok(Op::Join(Arc::try_clone(state)?)),
    }
}

/// Whether a state is one of a variable of the kind, among so many nodes.
#[tactic(auto, using(crate::proofs::UpdateLaws::kinds))]
fn is_state_of(s: &State, kind: &Kind, nodes: u64) -> bool
    ensures { result ≡ is_shape (state.shape_of s.now) (shape_of nodes (kind_of kind.now)) }
{
    match s {
        State::Set(_) => kind.is_set(),
        State::Grow(_) => matches!(kind, Kind::GSet),
        State::Count(counts) => {
            matches!(kind, Kind::Counter) && u64::from(counts.nodes()) == nodes
        }
        State::Max(_) => matches!(kind, Kind::MaxReg),
        State::Fold(_, _) => matches!(kind, Kind::Fold(_, _, _)),
    }
}

/// Whether an operation is one for sources of the kind, among so many nodes.
fn is_for(op: &Op, kind: &Kind, nodes: u64) -> bool
    requires { IsTrue (is_source (kind_of kind.now)) }
    ensures { result ≡ is_for nodes op.now (kind_of kind.now) }
{
    match op {
        Op::Add(_) | Op::Remove(_) => matches!(kind, Kind::OrSet),
        Op::Insert(_) => matches!(kind, Kind::GSet),
        Op::Inc(_) => matches!(kind, Kind::Counter),
        Op::Max(_) => matches!(kind, Kind::MaxReg),
        Op::Join(s) => is_state_of(s, kind, nodes),
    }
}

/// Recalls that the values of an operation have a spelling. It walks through the value and takes no memory.
pub(super) fn recall_op(op: &Op)
    ensures { IsInFormat op.now }
{
    match op {
        Op::Add(value) => recall_value(value),
        Op::Remove(value) => recall_value(value),
        Op::Insert(value) => recall_value(value),
        Op::Max(number) => recall_number(*number),
        Op::Inc(_) | Op::Join(_) => (),
    }
}

fn recall_number(n: i64)
    ensures { FitsSigned w64 n }
{}

/// Records the growth that a variable has made ready, where it grows. It takes no memory.
pub(super) fn record_growth(histories: &mut Vec<History>, var: u8, grows: bool, entry: u64)
    requires within { var < length histories.old.items }
    requires ready { IsTrue (kept_at histories.old.items var).prepared }
    requires after { AreBelow entry (kept_at histories.old.items var).history.growths }
    ensures { map told histories.new.items ≡ recorded grows var entry histories.old.items }
{
    if grows {
        histories[var as usize].record(entry);
    }
}

impl Replica {
    /// Why an update is refused, whatever its variable holds.
    pub(super) fn check_update(&self, var: u8, op: &Op) -> Result<(), UpdateRefused>
        requires { IsReplica self.now }
        ensures { refused result ≡ update_check (length self.now.counts) self.now.me (arc_value self.now.graph) self.now.counts var op.now }
    {
        if u64::from(var) >= self.graph.len() {
            return Err(UpdateRefused::UnknownVar);
        }
        let kind = &self.graph.at(u64::from(var)).kind;
        if !kind.is_source() {
            return Err(UpdateRefused::NotASource);
        }
        if !is_for(op, kind, self.counts.len()) {
            return Err(UpdateRefused::WrongOp);
        }
        if self.counts.at(u64::from(self.me)) >= MOST_UPDATES {
            return Err(UpdateRefused::UpdatesFull);
        }
        Ok(())
    }

    /// What an update brings to its source, unless it is refused.
    fn gain(&self, var: u8, op: &Op) -> Result<State, UpdateRefused>
        requires { IsReplica self.now }
        ensures ok { IfOk result (λ d. IsGain self.now var op.now d) }
        ensures answer { IsAnswered (update_refusal (length self.now.counts) self.now.me (arc_value self.now.graph) (contents_of self.now.states) self.now.counts var op.now) result }
    {
        self.check_update(var, op)?;
        let k = self.counts.at(u64::from(self.me)) + 1;
        let state: &State = self.states.at(u64::from(var));
        let whole = state.change(self.allocator(), op, self.me, k)?;
        let delta = brought(self.allocator(), state, op, whole)?;
        delta.recall();
        if !fits(state, &delta) {
            return Err(UpdateRefused::TooManyRows);
        }
        Ok(delta)
    }

    /// Joins what an update brings into its source, and takes all memory that writing it down needs. Whether the source grows.
    fn join_gain(&mut self, var: u8, delta: &State) -> Result<bool, AllocError>
        requires replica { IsReplica self.old }
        requires within { var < length (arc_value self.old.graph) }
        requires joinable { AreJoinable (held_at self.old.states var) (held_of delta.now) }
        ensures ok { IfOk result (λ grows. IsPrepared var (held_of delta.now) grows self.old self.new) }
        ensures err { OnErr result (Stays self.old self.new) }
    {
        let alloc = self.allocator();
        let x = u64::from(var);
        let state: &State = self.states.at(x);
        let rows = news(alloc, state, delta)?;
        let grows = grows_by(state, delta, &rows);
        self.histories[var as usize].prepare(&rows)?;
        self.journal.reserve(1)?;
        self.states.join_at(alloc, x, delta)?;
        Ok(grows)
    }

    /// Updates a source. All memory is taken before anything changes. A removal costs the value's live rows, and a look-up for each row that came since the last one. A set that is joined in costs a look-up for each of its rows, and a few more for each new one.
    pub fn update(&mut self, by: u64, var: u8, op: &Op) -> Result<(), UpdateRefused>
        requires replica { IsReplica self.old }
        requires small { IsSmall (length self.old.counts) op.now }
        ensures ok { OnOk result (Goes (entry by (model.Update var (op_of op.now))) self.old self.new) }
        ensures err { OnErr result (Stays self.old self.new) }
        ensures answer { IsAnswered (update_refusal (length self.old.counts) self.old.me (arc_value self.old.graph) (contents_of self.old.states) self.old.counts var op.now) result }
    {
        self.ready_source(var, op);
        self.update_ready(by, var, op)
    }

    /// The update, where its source is ready.
    fn update_ready(&mut self, by: u64, var: u8, op: &Op) -> Result<(), UpdateRefused>
        requires replica { IsReplica self.old }
        requires small { IsSmall (length self.old.counts) op.now }
        ensures ok { OnOk result (Goes (entry by (model.Update var (op_of op.now))) self.old self.new) }
        ensures err { OnErr result (Stays self.old self.new) }
        ensures answer { IsAnswered (update_refusal (length self.old.counts) self.old.me (arc_value self.old.graph) (contents_of self.old.states) self.old.counts var op.now) result }
    {
        recall_op(op);
        let delta = self.gain(var, op)?;
        let own = copied(self.allocator(), op)?;
        let grows = self.join_gain(var, &delta)?;
        let me = u64::from(self.me);
        let k = self.counts.at(me) + 1;
        self.counts.set(me, k);
        let entry = self.journal.len() as u64;
        record_growth(&mut self.histories, var, grows, entry);
        let _ = self.journal.push(Entry {
            by,
            what: Act::Update(var, own),
        });
        Ok(())
    }
}
