//! The states of variables, shared.

ghost use Rattle.std.specs.Prelude.{◌≡◌, ◌<◌, ◌++◌, ◌∷◌, [], pos, length, slice_get, slice_set, Some, IfOk, OnOk, OnErr};
ghost use Rattle.lasp_graph.specs.Prelude.{changed, of_rows, arc_value, held_of, held_at, grown, AreJoinable, HasRows, extended, set};
ghost use Rattle.lasp_state.specs.State.{content_of, shape_of, number_of};

use lasp_logset::{Entry, OrSet, RowList};
use lasp_state::State;
use std::alloc::{AllocError, Global};
use std::marker::Model;
use std::sync::Arc;

/// The states of variables, in their order. Contracts see of each its shape, its content and, of a fold, its number.
#[derive(Drop)]
pub struct States {
    pub(crate) states: Vec<Arc<State>>,
}

impl Model for States {
    ghost use Rattle.std.specs.Prelude.{List, map};
    ghost use Rattle.std.specs.Arc.{arc_value};
    ghost use Rattle.lasp_graph.specs.States.{Held, held_of, coded_states};

    ghost Value = { List Held };

    ghost coded = { coded_states };

    ghost view = { λ a. map (λ s. held_of (arc_value s)) a.states.items };
}

impl States {
    /// No states. It takes no memory.
    pub fn new(alloc: Global) -> States
        ensures { result ≡ [] }
    {
        States {
            states: Vec::new(alloc),
        }
    }

    /// The number of states.
    pub fn len(&self) -> u64
        ensures { result ≡ length self.now }
    {
        self.states.len() as u64
    }

    /// The state at a place, counted from 0.
    pub fn at(&self, i: u64) -> &Arc<State>
        requires { i < length self.now }
        ensures { slice_get self.now i ≡ Some (held_of (arc_value result.now)) }
    {
        &self.states[i as usize]
    }

    /// The state is appended.
    pub fn push(&mut self, state: Arc<State>) -> Result<(), AllocError>
        ensures ok { OnOk result (self.new ≡ self.old ++ held_of (arc_value state) ∷ []) }
        ensures err { OnErr result (self.new ≡ self.old) }
    {
        self.states.push(state)?;
        Ok(())
    }

    /// The same states, each shared.
    pub fn try_clone(&self, alloc: Global) -> Result<States, AllocError>
        ensures { IfOk result (λ s. s ≡ self.now) }
    {
        let mut all = States::new(alloc);
        for i in 0..self.len() {
            all.push(Arc::try_clone(self.at(i))?)?;
        }
        Ok(all)
    }

    /// The state takes the place of the one there. It takes no memory.
    pub fn replace(&mut self, i: u64, state: Arc<State>)
        requires { i < length self.old }
        ensures { self.new ≡ slice_set self.old i (held_of (arc_value state)) }
    {
        self.states[i as usize] = state;
    }

    /// Joins a state into the one at a place: in place where nobody shares it, else into a copy of its list of shares. Of two folds one covers the other, and the greater is taken with its number. After a refusal all is as before.
    pub fn join_at(&mut self, alloc: Global, i: u64, other: &State) -> Result<(), AllocError>
        requires within { i < length self.old }
        requires joinable { AreJoinable (held_at self.old i) (held_of other.now) }
        ensures ok { OnOk result (self.new ≡ slice_set self.old i (grown (held_at self.old i) (held_of other.now))) }
        ensures err { OnErr result (self.new ≡ self.old) }
    {
        join_shared(alloc, &mut self.states[i as usize], other)
    }

    /// Joins rows into the set at a place; of a fold into the set that it covers, and the fold has this number then. It happens in place where nobody shares the state, else in a copy of its list of shares. After a refusal all is as before.
    pub fn extend_at(
        &mut self,
        alloc: Global,
        i: u64,
        rows: &OrSet,
        number: i128,
    ) -> Result<(), AllocError>
        requires within { i < length self.old }
        requires rows { HasRows (held_at self.old i).shape }
        requires number { (held_at self.old i).shape ≡ set → number ≡ pos 0 }
        ensures ok { OnOk result (self.new ≡ slice_set self.old i (extended (held_at self.old i) rows.now number)) }
        ensures err { OnErr result (self.new ≡ self.old) }
    {
        extend_shared(alloc, &mut self.states[i as usize], rows, number)
    }

    /// Takes rows into the set at a place, of a fold into the set that it covers, and the fold has this number then; it tells those that made a difference, a row for each key. The rows are in any order, and a key may come twice. It happens in place where nobody shares the state, else in a copy of its list of shares. After a refusal all is as before.
    pub fn take_in_at(
        &mut self,
        alloc: Global,
        i: u64,
        rows: Vec<Entry>,
        number: i128,
    ) -> Result<RowList, AllocError>
        requires within { i < length self.old }
        requires rows { HasRows (held_at self.old i).shape }
        requires number { (held_at self.old i).shape ≡ set → number ≡ pos 0 }
        ensures ok { OnOk result (self.new ≡ slice_set self.old i (extended (held_at self.old i) (of_rows rows.items) number)) }
        ensures told { IfOk result (λ told. told ≡ changed (held_at self.old i).content.rows (of_rows rows.items)) }
        ensures err { OnErr result (self.new ≡ self.old) }
    {
        take_in_shared(alloc, &mut self.states[i as usize], rows, number)
    }
}

fn take_in_shared(
    alloc: Global,
    shared: &mut Arc<State>,
    rows: Vec<Entry>,
    number: i128,
) -> Result<RowList, AllocError>
    requires rows { HasRows (shape_of (arc_value shared.old)) }
    requires number { shape_of (arc_value shared.old) ≡ set → number ≡ pos 0 }
    ensures ok { OnOk result (held_of (arc_value shared.new) ≡ extended (held_of (arc_value shared.old)) (of_rows rows.items) number) }
    ensures told { IfOk result (λ told. told ≡ changed (content_of (arc_value shared.old)).rows (of_rows rows.items)) }
    ensures err { OnErr result (held_of (arc_value shared.new) ≡ held_of (arc_value shared.old)) }
{
    if let Some(state) = Arc::get_mut(shared) {
        return take_in_state(state, rows, number);
    }
    let mut copy = shared.try_clone()?;
    let told = take_in_state(&mut copy, rows, number)?;
    *shared = Arc::new(alloc, copy)?;
    Ok(told)
}

fn take_in_state(state: &mut State, rows: Vec<Entry>, number: i128) -> Result<RowList, AllocError>
    requires rows { HasRows (shape_of state.old) }
    requires number { shape_of state.old ≡ set → number ≡ pos 0 }
    ensures ok { OnOk result (held_of state.new ≡ extended (held_of state.old) (of_rows rows.items) number) }
    ensures told { IfOk result (λ told. told ≡ changed (content_of state.old).rows (of_rows rows.items)) }
    ensures err { OnErr result (held_of state.new ≡ held_of state.old) }
{
    let told = take_rows(state, rows)?;
    set_number(state, number);
    Ok(told)
}

/// Takes rows into a set, or into the set that a fold covers, whose number stays.
fn take_rows(state: &mut State, rows: Vec<Entry>) -> Result<RowList, AllocError>
    requires { HasRows (shape_of state.old) }
    ensures ok { OnOk result (held_of state.new ≡ extended (held_of state.old) (of_rows rows.items) (number_of state.old)) }
    ensures told { IfOk result (λ told. told ≡ changed (content_of state.old).rows (of_rows rows.items)) }
    ensures err { OnErr result (held_of state.new ≡ held_of state.old) }
{
    match state {
        State::Set(set) => set.take_in(rows),
        State::Fold(set, _) => set.take_in(rows),
        _ => unreachable!(),
    }
}

fn extend_shared(
    alloc: Global,
    shared: &mut Arc<State>,
    rows: &OrSet,
    number: i128,
) -> Result<(), AllocError>
    requires rows { HasRows (shape_of (arc_value shared.old)) }
    requires number { shape_of (arc_value shared.old) ≡ set → number ≡ pos 0 }
    ensures ok { OnOk result (held_of (arc_value shared.new) ≡ extended (held_of (arc_value shared.old)) rows.now number) }
    ensures err { OnErr result (held_of (arc_value shared.new) ≡ held_of (arc_value shared.old)) }
{
    if let Some(state) = Arc::get_mut(shared) {
        return extend_state(state, rows, number);
    }
    let mut copy = shared.try_clone()?;
    extend_state(&mut copy, rows, number)?;
    *shared = Arc::new(alloc, copy)?;
    Ok(())
}

fn extend_state(state: &mut State, rows: &OrSet, number: i128) -> Result<(), AllocError>
    requires rows { HasRows (shape_of state.old) }
    requires number { shape_of state.old ≡ set → number ≡ pos 0 }
    ensures ok { OnOk result (held_of state.new ≡ extended (held_of state.old) rows.now number) }
    ensures err { OnErr result (held_of state.new ≡ held_of state.old) }
{
    join_rows(state, rows)?;
    set_number(state, number);
    Ok(())
}

/// Joins rows into a set, or into the set that a fold covers, whose number stays.
fn join_rows(state: &mut State, rows: &OrSet) -> Result<(), AllocError>
    requires { HasRows (shape_of state.old) }
    ensures ok { OnOk result (held_of state.new ≡ extended (held_of state.old) rows.now (number_of state.old)) }
    ensures err { OnErr result (held_of state.new ≡ held_of state.old) }
{
    match state {
        State::Set(set) => set.join_in(rows)?,
        State::Fold(set, _) => set.join_in(rows)?,
        _ => unreachable!(),
    };
    Ok(())
}

/// A fold has another number.
fn set_number(state: &mut State, number: i128)
    requires rows { HasRows (shape_of state.old) }
    requires number { shape_of state.old ≡ set → number ≡ pos 0 }
    ensures { held_of state.new ≡ record { shape = shape_of state.old; content = content_of state.old; number = number } }
{
    if let State::Fold(_, old) = state {
        *old = number;
    }
}

fn join_shared(alloc: Global, shared: &mut Arc<State>, other: &State) -> Result<(), AllocError>
    requires { AreJoinable (held_of (arc_value shared.old)) (held_of other.now) }
    ensures ok { OnOk result (held_of (arc_value shared.new) ≡ grown (held_of (arc_value shared.old)) (held_of other.now)) }
    ensures err { OnErr result (held_of (arc_value shared.new) ≡ held_of (arc_value shared.old)) }
{
    if let Some(state) = Arc::get_mut(shared) {
        state.join_in(other)?;
        return Ok(());
    }
    let mut copy = shared.try_clone()?;
    copy.join_in(other)?;
    *shared = Arc::new(alloc, copy)?;
    Ok(())
}
