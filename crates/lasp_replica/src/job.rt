//! A job: a derived variable, its inputs, its state on earlier inputs, and the rows that changed since.

ghost use Rattle.std.specs.Prelude.{◌≡◌, ◌+◌, ◌≤◌, None, IfOk, IfSome, IsSome, IsTrue, OnErr, ◌↔◌, is_some, if◌then◌else◌, length};
ghost use Rattle.std.specs.Arc.{arc_value};
ghost use Rattle.model_sets.specs.Rows.{join};
ghost use Rattle.model_graph.specs.Graph.{kind_at};
ghost use Rattle.model_readings.specs.Lawful.{FitsAll};
ghost use Rattle.lasp_fns.specs.Steps as counted;
ghost use Rattle.lasp_state.specs.State.{content_of, shape_of, number_of};
ghost use Rattle.lasp_graph.specs.Library.{library_of};
ghost use Rattle.lasp_graph.specs.Delta.{gained};
ghost use Rattle.lasp_graph.specs.Evaluated.{process, Becomes, seen, derived_shape, number_by, second_of};
ghost use Rattle.lasp_replica.specs.Asked.{IsAsked, IsAsked-prop, IsGained, IsGained-prop};

use super::given_up::GivenUp;
use super::parts::JobParts;
use lasp_fns::StepLib;
use lasp_graph::{EvalRefused, Graph, Inputs, node_gain};
use lasp_logset::OrSet;
use lasp_state::State;
use std::alloc::Global;
use std::sync::Arc;

/// A job: to evaluate a derived variable. It is to be given back to who made it, so it can't be dropped: `into_parts` takes it apart.
pub struct Job {
    /// The variable.
    pub var: u8,
    /// The number of the job, as its maker counts it.
    pub n: u64,
    /// The inputs of the variable as they are.
    pub inputs: Inputs,
    /// The graph in which the variable is declared.
    pub graph: Arc<Graph>,
    /// The inputs of its last evaluation.
    pub base: Inputs,
    /// Its state on those.
    pub before: Arc<State>,
    /// Rows that make the first input what it is, from what it was.
    pub first: OrSet,
    /// The same of the second input. Where there is none, the first stands for it.
    pub second: OrSet,
    /// The rows that the variable gained, where the job was evaluated.
    pub gain: Option<OrSet>,
    pub ghost asked: { IsAsked (arc_value graph) var inputs base (arc_value before) first second } by { IsAsked-prop (arc_value graph) var inputs base (arc_value before) first second },
    pub ghost gained: { IsGained (kind_at (arc_value graph) var) inputs (arc_value before) gain } by { IsGained-prop (kind_at (arc_value graph) var) inputs (arc_value before) gain },
}

impl Job {
    /// A job that isn't evaluated yet.
    pub fn new(
        var: u8,
        n: u64,
        inputs: Inputs,
        graph: Arc<Graph>,
        base: Inputs,
        before: Arc<State>,
        first: OrSet,
        second: OrSet,
    ) -> Job
        requires { IsAsked (arc_value graph) var inputs base (arc_value before) first second }
        ensures var { (result.var ≡ var) × (result.n ≡ n) }
        ensures inputs { (result.inputs ≡ inputs) × (result.graph ≡ graph) }
        ensures earlier { (result.base ≡ base) × (result.before ≡ before) }
        ensures rows { (result.first ≡ first) × (result.second ≡ second) }
        ensures fresh { result.gain ≡ None }
    {
        Job {
            var,
            n,
            inputs,
            graph,
            base,
            before,
            first,
            second,
            gain: None,
        }
    }

    /// The number of rows that changed in the inputs: what an evaluation costs.
    pub fn changed_rows(&self) -> u64
        ensures { result ≡ length self.now.first + (if is_some self.now.inputs.second then length self.now.second else 0) }
    {
        match &self.inputs.second {
            Some(_) => self.first.rows() + self.second.rows(),
            None => self.first.rows(),
        }
    }

    /// Whether the library has each function of the job's graph at its place. It costs the operations of the graph's functions, and counts no call.
    pub fn fits(&self, lib: &StepLib) -> bool
        ensures { IsTrue result ↔ FitsAll (library_of (counted.library_of lib.now)) (arc_value self.now.graph) }
    {
        self.graph.fits_steps(lib)
    }

    /// The variable's state on the job's inputs. The job then keeps the rows that the variable gains by it; after a refusal it is as before.
    /// It costs as `lasp_graph::node_gain`, and calls a stored function at most once for each changed row of the first input.
    pub fn evaluate(&mut self, alloc: Global, lib: &mut StepLib) -> Result<State, EvalRefused>
        requires fits { FitsAll (library_of (counted.library_of lib.old)) (arc_value self.old.graph) }
        ensures content { Becomes (seen content_of result) (process (kind_at (arc_value self.old.graph) self.old.var) (content_of (arc_value self.old.inputs.first)) (content_of (second_of self.old.inputs))) }
        ensures shape { IfOk result (λ s. shape_of s ≡ derived_shape (kind_at (arc_value self.old.graph) self.old.var)) }
        ensures number { IfOk result (λ s. number_of s ≡ number_by (kind_at (arc_value self.old.graph) self.old.var) (content_of s)) }
        ensures some { IfOk result (λ s. IsSome self.new.gain) }
        ensures gain { IfOk result (λ s. IfSome self.new.gain (λ rows. join (content_of (arc_value self.old.before)).rows rows ≡ (content_of s).rows)) }
        ensures gains { IfOk result (λ s. IfSome self.new.gain (λ rows. rows ≡ gained (kind_at (arc_value self.old.graph) self.old.var) self.old.first (content_of (arc_value self.old.inputs.first)).rows self.old.second (content_of (second_of self.old.inputs)).rows)) }
        ensures err { OnErr result (self.new.gain ≡ self.old.gain) }
        ensures var { (self.new.var ≡ self.old.var) × (self.new.n ≡ self.old.n) }
        ensures inputs { (self.new.inputs ≡ self.old.inputs) × (self.new.graph ≡ self.old.graph) }
        ensures earlier { (self.new.base ≡ self.old.base) × (self.new.before ≡ self.old.before) }
        ensures rows { (self.new.first ≡ self.old.first) × (self.new.second ≡ self.old.second) }
        ensures library { counted.library_of lib.new ≡ counted.library_of lib.old }
        ensures ticks { counted.ticks_of lib.new ≤ counted.ticks_of lib.old + length self.old.first }
    {
        let gain = node_gain(
            alloc,
            &self.graph,
            lib,
            self.var,
            &self.before,
            &self.inputs,
            &self.first,
            &self.second,
        )?;
        self.gain = Some(gain.rows);
        Ok(gain.state)
    }

    /// Gives the job up, and with it all that it shares.
    pub fn give_up(self) -> GivenUp
        ensures { result.var ≡ self.var }
    {
        let parts = self.into_parts();
        GivenUp { var: parts.var }
    }

    /// Takes the job apart.
    pub fn into_parts(self) -> JobParts
        ensures var { (result.var ≡ self.var) × (result.n ≡ self.n) }
        ensures inputs { (result.inputs ≡ self.inputs) × (result.graph ≡ self.graph) }
        ensures earlier { (result.base ≡ self.base) × (result.before ≡ self.before) }
        ensures gain { result.gain ≡ self.gain }
    {
        let Job {
            var,
            n,
            inputs,
            graph,
            base,
            before,
            first: _,
            second: _,
            gain,
        } = self;
        JobParts {
            var,
            n,
            inputs,
            graph,
            base,
            before,
            gain,
        }
    }
}
