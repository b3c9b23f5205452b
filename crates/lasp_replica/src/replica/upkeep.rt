//! What makes later calls cheap and changes nothing that is seen.

ghost use Rattle.std.specs.Prelude.{◌≡◌, ◌<◌, length};
ghost use Rattle.lasp_replica.specs.Prelude.{arc_value, IsDerived, IsReplica};

use super::Replica;
use crate::History;
use lasp_graph::{Graph, Kind, States};
use lasp_state::Op;

/// How many rows, or growths, are worth closing a log.
const FEW: u64 = 16;

/// Puts what came into the table of a state, where no one else has it by now, and closes its log.
fn tend(states: &mut States, x: u64)
    requires { x < length states.old }
    ensures { states.new ≡ states.old }
{
    states.gather_at(x);
    states.close_at(x);
}

/// The same for all states.
pub(super) fn tend_all(states: &mut States)
    ensures { states.new ≡ states.old }
{
    for x in 0..states.len() {
        tend(states, x);
    }
}

/// The same for a derived variable's state and for both of its inputs, so that a job and its result share chunks and not rows.
fn tend_process(states: &mut States, var: u8, x: u8, y: u8)
    requires itself { var < length states.old }
    requires first { x < length states.old }
    requires second { y < length states.old }
    ensures { states.new ≡ states.old }
{
    tend(states, u64::from(var));
    tend(states, u64::from(x));
    tend(states, u64::from(y));
}

/// Puts what came into the tables of a derived variable's state and of its inputs, where no one else has them by now.
fn gather_process(states: &mut States, var: u8, x: u8, y: u8)
    requires itself { var < length states.old }
    requires first { x < length states.old }
    requires second { y < length states.old }
    ensures { states.new ≡ states.old }
{
    states.gather_at(u64::from(var));
    states.gather_at(u64::from(x));
    states.gather_at(u64::from(y));
}

/// Closes the log of a state where many rows changed, and else at one growth of several: till then a share costs a few rows more.
fn close_at_times(states: &mut States, history: &History, x: u8, rows: u64)
    requires { x < length states.old }
    ensures { states.new ≡ states.old }
{
    if rows >= FEW || history.version() % FEW == 0 {
        states.close_at(u64::from(x));
    }
}

/// Sees that a process finds without a pass what it looks up by value: a fold the live rows of its input and of itself, an intersection all rows of either input.
fn index_for(states: &mut States, kind: &Kind, var: u8, x: u8, y: u8)
    requires itself { var < length states.old }
    requires first { x < length states.old }
    requires second { y < length states.old }
    ensures { states.new ≡ states.old }
{
    match kind {
        Kind::Fold(_, _, _) => {
            states.index_values_at(u64::from(x));
            states.index_values_at(u64::from(var));
        }
        Kind::Intersection(_, _) => {
            states.index_rows_at(u64::from(x));
            states.index_rows_at(u64::from(y));
        }
        _ => {}
    }
}

/// Sees that the processes of later variables find without a pass what they look up by value in an input: while the job that is made shares it, that can't be seen to.
fn index_for_later(states: &mut States, graph: &Graph, var: u8, x: u8)
    ensures { states.new ≡ states.old }
{
    if u64::from(x) >= states.len() {
        return;
    }
    for z in u64::from(var) + 1..graph.len() {
        match &graph.at(z).kind {
            Kind::Fold(input, _, _) => {
                if *input == x {
                    states.index_values_at(u64::from(x));
                }
            }
            Kind::Intersection(first, second) => {
                if *first == x || *second == x {
                    states.index_rows_at(u64::from(x));
                }
            }
            _ => {}
        }
    }
}

impl Replica {
    /// Sees that a share of a derived variable and of its inputs costs little, and that its process finds values in them without a pass.
    pub(super) fn ready_inputs(&mut self, var: u8)
        requires replica { IsReplica self.old }
        requires derived { IsDerived (arc_value self.old.graph) var }
        ensures { self.new ≡ self.old }
    {
        let kind = &self.graph.at(u64::from(var)).kind;
        if let Some((x, y)) = kind.inputs() {
            tend_process(&mut self.states, var, x, y);
            index_for(&mut self.states, kind, var, x, y);
            index_for_later(&mut self.states, &self.graph, var, x);
            if y != x {
                index_for_later(&mut self.states, &self.graph, var, y);
            }
        }
    }

    /// Sees that a derived variable and its inputs are looked up in tables, and that its process finds values in them without a pass.
    pub(super) fn ready_in_place(&mut self, var: u8)
        requires replica { IsReplica self.old }
        requires derived { IsDerived (arc_value self.old.graph) var }
        ensures { self.new ≡ self.old }
    {
        let kind = &self.graph.at(u64::from(var)).kind;
        if let Some((x, y)) = kind.inputs() {
            gather_process(&mut self.states, var, x, y);
            index_for(&mut self.states, kind, var, x, y);
        }
    }

    /// Sees that shares of the inputs' logs cost little, where so many rows changed in them.
    pub(super) fn close_inputs(&mut self, var: u8, rows: u64)
        requires replica { IsReplica self.old }
        requires derived { IsDerived (arc_value self.old.graph) var }
        ensures { self.new ≡ self.old }
    {
        let kind = &self.graph.at(u64::from(var)).kind;
        if let Some((x, y)) = kind.inputs() {
            close_at_times(&mut self.states, &self.histories[x as usize], x, rows);
            close_at_times(&mut self.states, &self.histories[y as usize], y, rows);
        }
    }

    /// Sees that all rows of a value of a variable are found without a pass.
    pub fn index_rows(&mut self, var: u8)
        ensures { self.new ≡ self.old }
    {
        let x = u64::from(var);
        if x < self.states.len() {
            self.states.index_rows_at(x);
        }
    }

    /// Sees that a pass over a variable's rows in their order costs little more than a comparison for each.
    pub fn order_rows(&mut self, var: u8)
        ensures { self.new ≡ self.old }
    {
        let x = u64::from(var);
        if x < self.states.len() {
            self.states.order_rows_at(x);
        }
    }

    /// Sees that an update looks up in a table, and that a removal finds the live rows of its value without a pass.
    pub(super) fn ready_source(&mut self, var: u8, op: &Op)
        ensures { self.new ≡ self.old }
    {
        let x = u64::from(var);
        if x >= self.states.len() {
            return;
        }
        self.states.gather_at(x);
        if let Op::Remove(value) = op {
            self.states.prune_value_at(x, value);
        }
    }
}
