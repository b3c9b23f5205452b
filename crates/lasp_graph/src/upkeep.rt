//! What makes later calls on states cheap and changes nothing that is seen.

ghost use Rattle.std.specs.Prelude.{◌≡◌, ◌<◌, length};
ghost use Rattle.lasp_graph.specs.Prelude.{arc_value};

use super::states::States;
use lasp_state::State;
use lasp_value::Value;
use std::sync::Arc;

impl States {
    /// `State::gather` of the state at a place, where nobody shares it.
    pub fn gather_at(&mut self, i: u64)
        requires { i < length self.old }
        ensures { self.new ≡ self.old }
    {
        self.tend_at(i, &Upkeep::Gather)
    }

    /// `State::close` of the state at a place, where nobody shares it.
    pub fn close_at(&mut self, i: u64)
        requires { i < length self.old }
        ensures { self.new ≡ self.old }
    {
        self.tend_at(i, &Upkeep::Close)
    }

    /// `State::index_values` of the state at a place, where nobody shares it.
    pub fn index_values_at(&mut self, i: u64)
        requires { i < length self.old }
        ensures { self.new ≡ self.old }
    {
        self.tend_at(i, &Upkeep::Index)
    }

    /// `State::index_rows` of the state at a place, where nobody shares it.
    pub fn index_rows_at(&mut self, i: u64)
        requires { i < length self.old }
        ensures { self.new ≡ self.old }
    {
        self.tend_at(i, &Upkeep::IndexAll)
    }

    /// `State::order_rows` of the state at a place, where nobody shares it.
    pub fn order_rows_at(&mut self, i: u64)
        requires { i < length self.old }
        ensures { self.new ≡ self.old }
    {
        self.tend_at(i, &Upkeep::Order)
    }

    /// `State::prune_value` of the state at a place, where nobody shares it.
    pub fn prune_value_at(&mut self, i: u64, value: &Value)
        requires { i < length self.old }
        ensures { self.new ≡ self.old }
    {
        self.tend_at(i, &Upkeep::Prune(value))
    }

    fn tend_at(&mut self, i: u64, upkeep: &Upkeep<'_>)
        requires { i < length self.old }
        ensures { self.new ≡ self.old }
    {
        tend_shared(&mut self.states[i as usize], upkeep)
    }
}

/// What can be done to a state.
#[derive(Drop)]
enum Upkeep<'a> {
    Gather,
    Close,
    Index,
    IndexAll,
    Order,
    Prune(&'a Value),
}

fn tend_shared(shared: &mut Arc<State>, upkeep: &Upkeep<'_>)
    ensures { arc_value shared.new ≡ arc_value shared.old }
{
    if let Some(state) = Arc::get_mut(shared) {
        tend(state, upkeep);
    }
}

fn tend(state: &mut State, upkeep: &Upkeep<'_>)
    ensures { state.new ≡ state.old }
{
    match upkeep {
        Upkeep::Gather => state.gather(),
        Upkeep::Close => state.close(),
        Upkeep::Index => state.index_values(),
        Upkeep::IndexAll => state.index_rows(),
        Upkeep::Order => state.order_rows(),
        Upkeep::Prune(value) => state.prune_value(value),
    }
}
