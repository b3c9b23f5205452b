//! One process after its inputs changed: from its state before and the changed rows, its state and what it gained.

ghost use Rattle.std.specs.Prelude.{◌≡◌, ◌+◌, ◌<◌, ◌≤◌, Err, IfOk, IsFalse, length};
ghost use Rattle.lasp_graph.specs.Prelude.{arc_value, join, of_rows, changed, of_set, size_of, row_limit, IsContentAtMost, set, kind_at, is_source, IsChange, HasWidth, FitsAll, content_of, number_of, library_of, process, Becomes, seen, derived_shape, number_by, second_of, IsStateOf, IsStateBefore, IsForMemory, gained};
ghost use Rattle.lasp_fns.specs.Steps as counted;
ghost use Rattle.lasp_state.specs.State.{shape_of};

use super::graph::Graph;
use super::increment::{Gain, RowsGained, eval_gain, eval_rows_gained};
use super::inputs::{EvalRefused, Inputs};
use lasp_fns::StepLib;
use lasp_logset::{OrSet, RowList, changed};
use lasp_state::State;
use std::alloc::Global;

/// The state of a process on its inputs, from its state on inputs that were at most these. It answers and refuses as `eval_node`.
/// It finds the changed rows by a look-up for each row of the inputs, and then costs what `node_increment` costs.
pub fn node_delta(
    alloc: Global,
    g: &Graph,
    lib: &mut StepLib,
    var: u8,
    base: &Inputs,
    old: &State,
    inputs: &Inputs,
) -> Result<State, EvalRefused>
    requires declared { var < length g.now }
    requires derived { IsFalse (is_source (kind_at g.now var)) }
    requires fits { FitsAll (library_of (counted.library_of lib.old)) g.now }
    requires sets { (shape_of (arc_value inputs.now.first) ≡ set) × (shape_of (second_of inputs.now) ≡ set) }
    requires base_sets { (shape_of (arc_value base.now.first) ≡ set) × (shape_of (second_of base.now) ≡ set) }
    requires more { IsContentAtMost (content_of (arc_value base.now.first)) (content_of (arc_value inputs.now.first)) × IsContentAtMost (content_of (second_of base.now)) (content_of (second_of inputs.now)) }
    requires old { IsStateOf (kind_at g.now var) (content_of (arc_value base.now.first)) (content_of (second_of base.now)) old.now }
    requires width { HasWidth 16 (content_of (arc_value inputs.now.first)) }
    requires small { size_of (content_of (arc_value inputs.now.first)) ≤ row_limit }
    ensures content { Becomes (seen content_of result) (process (kind_at g.now var) (content_of (arc_value inputs.now.first)) (content_of (second_of inputs.now))) }
    ensures shape { IfOk result (λ s. shape_of s ≡ derived_shape (kind_at g.now var)) }
    ensures number { IfOk result (λ s. number_of s ≡ number_by (kind_at g.now var) (content_of s)) }
    ensures library { counted.library_of lib.new ≡ counted.library_of lib.old }
    ensures ticks { counted.ticks_of lib.new ≤ counted.ticks_of lib.old + length (changed (content_of (arc_value base.now.first)).rows (content_of (arc_value inputs.now.first)).rows) }
{
    let first = changed_between(alloc, &base.first, &inputs.first)?;
    match (&base.second, &inputs.second) {
        (None, None) => node_increment(alloc, g, lib, var, old, inputs, &first, &first),
        (_, _) => {
            let second = changed_between(alloc, second_of(base), second_of(inputs))?;
            node_increment(alloc, g, lib, var, old, inputs, &first, &second)
        }
    }
}

/// The state of a process on its inputs, from its state before and the rows that changed in each of them since: any rows that make the difference.
/// It answers, refuses and costs as `node_gain`.
pub fn node_increment(
    alloc: Global,
    g: &Graph,
    lib: &mut StepLib,
    var: u8,
    old: &State,
    inputs: &Inputs,
    first: &OrSet,
    second: &OrSet,
) -> Result<State, EvalRefused>
    requires declared { var < length g.now }
    requires derived { IsFalse (is_source (kind_at g.now var)) }
    requires fits { FitsAll (library_of (counted.library_of lib.old)) g.now }
    requires sets { (shape_of (arc_value inputs.now.first) ≡ set) × (shape_of (second_of inputs.now) ≡ set) }
    requires old { IsStateBefore (kind_at g.now var) first.now (content_of (arc_value inputs.now.first)).rows second.now (content_of (second_of inputs.now)).rows old.now }
    requires width { HasWidth 16 (content_of (arc_value inputs.now.first)) }
    requires small { size_of (content_of (arc_value inputs.now.first)) ≤ row_limit }
    ensures content { Becomes (seen content_of result) (process (kind_at g.now var) (content_of (arc_value inputs.now.first)) (content_of (second_of inputs.now))) }
    ensures shape { IfOk result (λ s. shape_of s ≡ derived_shape (kind_at g.now var)) }
    ensures number { IfOk result (λ s. number_of s ≡ number_by (kind_at g.now var) (content_of s)) }
    ensures library { counted.library_of lib.new ≡ counted.library_of lib.old }
    ensures ticks { counted.ticks_of lib.new ≤ counted.ticks_of lib.old + length first.now }
{
    match node_gain(alloc, g, lib, var, old, inputs, first, second) {
        Ok(gain) => Ok(gain.state),
        Err(refused) => Err(refused),
    }
}

/// The state of a process on its inputs, from its state before and the rows that changed in each of them since, any rows that make the difference; and the rows that it gains.
/// It costs the changed rows and the rows that they give, and a share of the log of the result. It calls a stored function at most once for each changed row of the first input.
pub fn node_gain(
    alloc: Global,
    g: &Graph,
    lib: &mut StepLib,
    var: u8,
    old: &State,
    inputs: &Inputs,
    first: &OrSet,
    second: &OrSet,
) -> Result<Gain, EvalRefused>
    requires declared { var < length g.now }
    requires derived { IsFalse (is_source (kind_at g.now var)) }
    requires fits { FitsAll (library_of (counted.library_of lib.old)) g.now }
    requires sets { (shape_of (arc_value inputs.now.first) ≡ set) × (shape_of (second_of inputs.now) ≡ set) }
    requires old { IsStateBefore (kind_at g.now var) first.now (content_of (arc_value inputs.now.first)).rows second.now (content_of (second_of inputs.now)).rows old.now }
    requires width { HasWidth 16 (content_of (arc_value inputs.now.first)) }
    requires small { size_of (content_of (arc_value inputs.now.first)) ≤ row_limit }
    ensures content { Becomes (seen (λ a. content_of a.state) result) (process (kind_at g.now var) (content_of (arc_value inputs.now.first)) (content_of (second_of inputs.now))) }
    ensures shape { IfOk result (λ a. shape_of a.state ≡ derived_shape (kind_at g.now var)) }
    ensures number { IfOk result (λ a. number_of a.state ≡ number_by (kind_at g.now var) (content_of a.state)) }
    ensures gain { IfOk result (λ a. join (content_of old.now).rows a.rows ≡ (content_of a.state).rows) }
    ensures rows { IfOk result (λ a. a.rows ≡ gained (kind_at g.now var) first.now (content_of (arc_value inputs.now.first)).rows second.now (content_of (second_of inputs.now)).rows) }
    ensures library { counted.library_of lib.new ≡ counted.library_of lib.old }
    ensures ticks { counted.ticks_of lib.new ≤ counted.ticks_of lib.old + length first.now }
{
    g.recall();
    let kind = &g.at(var as u64).kind;
    let x = set_of(&inputs.first);
    let y = set_of(second_of(inputs));
    eval_gain(alloc, kind, lib, old, x, first, y, second)
}

/// The rows that a process gains, and its number if it is a fold, from its state before, its inputs and the rows that changed in each of them since, any rows that make the difference. A process over one set reads the first. No state is made: the rows are to be joined into the one that is there.
/// It costs the changed rows and the rows that they give. It calls a stored function at most once for each changed row of the first input.
pub fn node_rows_gained(
    alloc: Global,
    g: &Graph,
    lib: &mut StepLib,
    var: u8,
    old: &State,
    x: &State,
    first: &RowList,
    y: &State,
    second: &RowList,
) -> Result<RowsGained, EvalRefused>
    requires declared { var < length g.now }
    requires derived { IsFalse (is_source (kind_at g.now var)) }
    requires fits { FitsAll (library_of (counted.library_of lib.old)) g.now }
    requires sets { (shape_of x.now ≡ set) × (shape_of y.now ≡ set) }
    requires old { IsStateBefore (kind_at g.now var) first.now (content_of x.now).rows second.now (content_of y.now).rows old.now }
    requires width { HasWidth 16 (content_of x.now) }
    requires small { size_of (content_of x.now) ≤ row_limit }
    ensures rows { IfOk result (λ a. of_rows a.rows.items ≡ gained (kind_at g.now var) first.now (content_of x.now).rows second.now (content_of y.now).rows) }
    ensures whole { IfOk result (λ a. process (kind_at g.now var) (content_of x.now) (content_of y.now) ≡ of_set (join (content_of old.now).rows (of_rows a.rows.items))) }
    ensures number { IfOk result (λ a. a.number ≡ number_by (kind_at g.now var) (process (kind_at g.now var) (content_of x.now) (content_of y.now))) }
    ensures large { result ≡ Err EvalRefused.TooManyRows → row_limit < size_of (process (kind_at g.now var) (content_of x.now) (content_of y.now)) }
    ensures library { counted.library_of lib.new ≡ counted.library_of lib.old }
    ensures ticks { counted.ticks_of lib.new ≤ counted.ticks_of lib.old + length first.now }
{
    g.recall();
    let kind = &g.at(var as u64).kind;
    eval_rows_gained(alloc, kind, lib, old, set_of(x), first, set_of(y), second)
}

/// The second input, or the first one where there is no second.
fn second_of(inputs: &Inputs) -> &State
    ensures { result.now ≡ second_of inputs.now }
{
    match &inputs.second {
        Some(second) => second,
        None => &inputs.first,
    }
}

/// The rows of a set.
fn set_of(state: &State) -> &OrSet
    requires { shape_of state.now ≡ set }
    ensures { content_of state.now ≡ of_set result.now }
{
    match state {
        State::Set(rows) => rows,
        _ => unreachable!(),
    }
}

/// The rows that changed from one set to another.
fn changed_between(alloc: Global, before: &State, after: &State) -> Result<OrSet, EvalRefused>
    requires before { shape_of before.now ≡ set }
    requires after { shape_of after.now ≡ set }
    ensures ok { IfOk result (λ s. s ≡ changed (content_of before.now).rows (content_of after.now).rows) }
    ensures change { IfOk result (λ s. IsContentAtMost (content_of before.now) (content_of after.now) → IsChange (content_of before.now).rows s (content_of after.now).rows) }
    ensures memory { IsForMemory result }
{
    let old = set_of(before);
    let new = set_of(after);
    old.ascends();
    new.ascends();
    Ok(changed(alloc, old, new)?)
}
