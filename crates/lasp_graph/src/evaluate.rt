//! Plain evaluation: the states of all variables from those of the sources, declaration by declaration, from scratch.

ghost use Rattle.std.specs.Prelude.{◌≡◌, ◌<◌, ◌≤◌, length, IfOk, IsFalse};
ghost use Rattle.lasp_graph.specs.Prelude.{arc_value, size_of, row_limit, set, kind_at, is_source, IsKind, sources_among, content_at, eval, evaluated, HasWidth, Fits, FitsAll, content_of, number_of, kind_of, library_of, held_of, held_at, contents_of, by_variable, process, AreSmall, Becomes, Evaluates, seen, AreSets, AreNarrow, derived_shape, shape_after, KeepShapes, number_by, KeepNumbers, second_of};
ghost use Rattle.lasp_state.specs.State.{shape_of};

use super::graph::Graph;
use super::inputs::{EvalAll, EvalRefused, Inputs};
use super::kind::Kind;
use super::process::eval_process;
use super::sources::by_variable;
use super::states::States;
use lasp_fns::Library;
use lasp_state::State;
use std::alloc::Global;
use std::sync::Arc;

/// The most rows that a variable may have.
const MOST_ROWS: u64 = 65_536;

/// The state of a process on its inputs, which hold sets of at most 65,536 rows and of width at most 16. A process over one set reads the first input alone.
pub fn eval_node(
    alloc: Global,
    g: &Graph,
    lib: &Library,
    var: u8,
    inputs: &Inputs,
) -> Result<State, EvalRefused>
    requires declared { var < length g.now }
    requires derived { IsFalse (is_source (kind_at g.now var)) }
    requires fits { FitsAll (library_of lib.now) g.now }
    requires sets { (shape_of (arc_value inputs.now.first) ≡ set) × (shape_of (second_of inputs.now) ≡ set) }
    requires width { HasWidth 16 (content_of (arc_value inputs.now.first)) }
    requires small { size_of (content_of (arc_value inputs.now.first)) ≤ row_limit }
    ensures content { Becomes (seen content_of result) (process (kind_at g.now var) (content_of (arc_value inputs.now.first)) (content_of (second_of inputs.now))) }
    ensures shape { IfOk result (λ s. shape_of s ≡ derived_shape (kind_at g.now var)) }
    ensures number { IfOk result (λ s. number_of s ≡ number_by (kind_at g.now var) (content_of s)) }
{
    g.recall();
    let second = match &inputs.second {
        Some(second) => second,
        None => &inputs.first,
    };
    eval_process(alloc, &g.at(var as u64).kind, lib, &inputs.first, second)
}

/// The states of all variables, or the least variable that has too many rows. There is one state for each source, in order.
/// It costs the processes' equations on whole states; sources are shared.
pub fn eval_all(
    alloc: Global,
    g: &Graph,
    lib: &Library,
    sources: &States,
) -> Result<States, EvalAll>
    requires all { length sources.now ≡ length (sources_among g.now) }
    requires fits { FitsAll (library_of lib.now) g.now }
    requires sets { AreSets g.now (by_variable g.now sources.now) }
    requires narrow { AreNarrow g.now (by_variable g.now sources.now) }
    ensures exact { Evaluates (seen contents_of result) (eval g.now (contents_of (by_variable g.now sources.now))) }
    ensures shapes { IfOk result (λ states. KeepShapes (length g.now) g.now (by_variable g.now sources.now) states) }
    ensures numbers { IfOk result (λ states. KeepNumbers (length g.now) g.now states) }
{
    let given = by_variable(alloc, g, sources)?;
    eval_by_variable(alloc, g, lib, &given)
}

/// The same, where a state is given for each variable; what is given for derived ones isn't read.
pub fn eval_by_variable(
    alloc: Global,
    g: &Graph,
    lib: &Library,
    sources: &States,
) -> Result<States, EvalAll>
    requires all { length sources.now ≡ length g.now }
    requires fits { FitsAll (library_of lib.now) g.now }
    requires sets { AreSets g.now sources.now }
    requires narrow { AreNarrow g.now sources.now }
    ensures exact { Evaluates (seen contents_of result) (eval g.now (contents_of sources.now)) }
    ensures shapes { IfOk result (λ states. KeepShapes (length g.now) g.now sources.now states) }
    ensures numbers { IfOk result (λ states. KeepNumbers (length g.now) g.now states) }
{
    let mut states = States::new(alloc);
    for var in 0..g.len() {
        match eval_var(alloc, g, lib, var as u8, &states, sources) {
            Ok(state) => states.push(state)?,
            Err(refused) => return Err(refused.at(var as u8)),
        }
    }
    Ok(states)
}

/// The state of one variable, from those before it and the sources.
fn eval_var(
    alloc: Global,
    g: &Graph,
    lib: &Library,
    var: u8,
    done: &States,
    sources: &States,
) -> Result<Arc<State>, EvalRefused>
    requires declared { var < length g.now }
    requires done { length done.now ≡ var }
    requires all { length sources.now ≡ length g.now }
    requires fits { FitsAll (library_of lib.now) g.now }
    requires sets { AreSets g.now sources.now }
    requires shapes { KeepShapes var g.now sources.now done.now }
    requires width { (x : _) → x < var → HasWidth 16 (content_at (contents_of done.now) x) }
    requires small { AreSmall (contents_of done.now) }
    ensures content { Becomes (seen (λ s. content_of (arc_value s)) result) (evaluated (kind_at g.now var) (contents_of done.now) (contents_of sources.now)) }
    ensures shape { IfOk result (λ s. shape_of (arc_value s) ≡ shape_after (kind_at g.now var) (held_at sources.now var).shape) }
    ensures number { IfOk result (λ s. IsFalse (is_source (kind_at g.now var)) → number_of (arc_value s) ≡ number_by (kind_at g.now var) (content_of (arc_value s))) }
{
    let kind = &g.at(var as u64).kind;
    match kind.inputs() {
        None => share(sources.at(var as u64)),
        Some((x, y)) => {
            g.recall();
            let first = done.at(x as u64);
            let second = done.at(y as u64);
            eval_derived(alloc, kind, lib, first, second)
        }
    }
}

/// The state of a process on its inputs, to be shared.
fn eval_derived(
    alloc: Global,
    kind: &Kind,
    lib: &Library,
    x: &State,
    y: &State,
) -> Result<Arc<State>, EvalRefused>
    requires derived { IsFalse (is_source (kind_of kind.now)) }
    requires fits { Fits (library_of lib.now) (kind_of kind.now) }
    requires sound { IsKind (kind_of kind.now) }
    requires sets { (shape_of x.now ≡ set) × (shape_of y.now ≡ set) }
    requires width { HasWidth 16 (content_of x.now) }
    requires small { size_of (content_of x.now) ≤ row_limit }
    ensures content { Becomes (seen (λ s. content_of (arc_value s)) result) (process (kind_of kind.now) (content_of x.now) (content_of y.now)) }
    ensures shape { IfOk result (λ s. shape_of (arc_value s) ≡ derived_shape (kind_of kind.now)) }
    ensures number { IfOk result (λ s. number_of (arc_value s) ≡ number_by (kind_of kind.now) (content_of (arc_value s))) }
{
    match eval_process(alloc, kind, lib, x, y) {
        Ok(state) => match Arc::new(alloc, state) {
            Ok(share) => Ok(share),
            Err(_) => Err(EvalRefused::Memory),
        },
        Err(refused) => Err(refused),
    }
}

fn share(state: &Arc<State>) -> Result<Arc<State>, EvalRefused>
    ensures content { Becomes (seen (λ s. content_of (arc_value s)) result) (content_of (arc_value state.now)) }
    ensures shape { IfOk result (λ s. shape_of (arc_value s) ≡ shape_of (arc_value state.now)) }
{
    if state.size() > MOST_ROWS {
        return Err(EvalRefused::TooManyRows);
    }
    match Arc::try_clone(state) {
        Ok(share) => Ok(share),
        Err(_) => Err(EvalRefused::Memory),
    }
}
