//! The states of a graph's sources: by themselves in their order, and among those of all variables.

ghost use Rattle.std.specs.Prelude.{◌≡◌, ◌<◌, ◌+◌, ◌++◌, ◌∷◌, [], ℕ, List, Some, length, IfOk, OnOk, IsTrue, if◌then◌else◌};
ghost use Rattle.lasp_graph.specs.Prelude.{arc_value, Content, Decl, is_source, kind_at, sources_among, content_at, equation, inputs_of, process, AreSets, AreNarrow, kind_of, Held, held_of, held_at, by_variable, sources_of};
ghost use Rattle.model_graph.specs.Graph as plain;

use super::graph::Graph;
use super::kind::Kind;
use super::states::States;
use lasp_state::State;
use std::alloc::{AllocError, Global};
use std::sync::Arc;

/// The states of the sources in their order, from those of all variables, each shared.
pub fn sources_of(alloc: Global, g: &Graph, states: &States) -> Result<States, AllocError>
    requires all { length states.now ≡ length g.now }
    ensures { IfOk result (λ sources. sources ≡ sources_of g.now states.now) }
{
    let mut sources = States::new(alloc);
    for var in 0..g.len() {
        let kind = &g.at(var).kind;
        let state = states.at(var);
        add_source(&mut sources, kind, state)?;
    }
    Ok(sources)
}

/// Appends the state of a source, and none of a derived variable.
fn add_source(sources: &mut States, kind: &Kind, state: &Arc<State>) -> Result<(), AllocError>
    ensures { OnOk result (sources.new ≡ (if is_source (kind_of kind.now) then sources.old ++ held_of (arc_value state.now) ∷ [] else sources.old)) }
{
    if !kind.is_source() {
        return Ok(());
    }
    let share = Arc::try_clone(state)?;
    sources.push(share)
}

/// One state for each variable, from those of the sources in their order, each shared; a set without rows for each derived one.
pub(crate) fn by_variable(alloc: Global, g: &Graph, sources: &States) -> Result<States, AllocError>
    requires all { length sources.now ≡ length (sources_among g.now) }
    ensures { IfOk result (λ states. states ≡ by_variable g.now sources.now) }
{
    let nothing = Arc::new(alloc, State::empty_set(alloc))?;
    let mut states = States::new(alloc);
    let mut next = 0;
    for var in 0..g.len() {
        let kind = &g.at(var).kind;
        next = add_given(&mut states, kind, sources, next, &nothing)?;
    }
    Ok(states)
}

/// Appends what is given for a variable of this kind, a source's from the place, and answers the place of the next source.
#[tactic(auto, using(crate::proofs::SourceLists::held_found))]
fn add_given(
    states: &mut States,
    kind: &Kind,
    sources: &States,
    place: u64,
    nothing: &Arc<State>,
) -> Result<u64, AllocError>
    requires { IsTrue (is_source (kind_of kind.now)) → place < length sources.now }
    ensures state { OnOk result (states.new ≡ states.old ++ (if is_source (kind_of kind.now) then held_at sources.now place else held_of (arc_value nothing.now)) ∷ []) }
    ensures next { IfOk result (λ next. next ≡ (if is_source (kind_of kind.now) then place + 1 else place)) }
{
    if !kind.is_source() {
        let share = Arc::try_clone(nothing)?;
        states.push(share)?;
        return Ok(place);
    }
    let _many = sources.len();
    let share = Arc::try_clone(sources.at(place))?;
    states.push(share)?;
    Ok(place + 1)
}

/// The sources by themselves are as many as the graph has, and put among all variables again each is what it was.
#[tactic(auto, using(crate::proofs::SourceLists::sources_many, crate::proofs::SourceLists::sources_again, crate::proofs::SourceLists::sets_again, crate::proofs::SourceLists::narrow_again))]
pub fn sources_are_found_again()
    ensures many { (g : List Decl) (states : List Held) → length (sources_of g states) ≡ length (sources_among g) }
    ensures again { (g : List Decl) (states : List Held) (x : ℕ) → x < length g → IsTrue (is_source (kind_at g x)) → held_at (by_variable g (sources_of g states)) x ≡ held_at states x }
    ensures sets { (g : List Decl) (states : List Held) → AreSets g states → AreSets g (by_variable g (sources_of g states)) }
    ensures narrow { (g : List Decl) (states : List Held) → AreNarrow g states → AreNarrow g (by_variable g (sources_of g states)) }
{}

/// What evaluation makes of a derived variable is its process on what its inputs hold. A process over one set has it as both inputs.
#[tactic(auto, using(crate::proofs::SourceLists::equation_process))]
pub fn equations_are_processes_on_inputs()
    ensures { (k : plain.Kind) (contents : List Content) (x y : ℕ) → inputs_of k ≡ Some (x, y) → equation k contents ≡ process k (content_at contents x) (content_at contents y) }
{}
