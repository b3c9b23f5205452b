//! What a replica keeps before anything happened.

ghost use Rattle.std.specs.Prelude.{◌≡◌, ◌<◌, IfOk, length, map};
ghost use Rattle.lasp_replica.specs.Prelude.{arc_value, decl_at, held_of, kind_of, no_history, has_two, fresh_state, fresh_base, told, jobs_of, seen_process};
ghost use Rattle.model_states.specs.Counts as plain;

use crate::History;
use crate::process::Process;
use lasp_graph::{Graph, Kind, States};
use lasp_state::State;
use lasp_wire::Counts;
use std::alloc::{AllocError, Global};
use std::sync::Arc;

/// The counts of so many replicas that did no update.
#[tactic(auto, using(crate::proofs::LeastLaws::pushes))]
pub(super) fn zeros(alloc: Global, nodes: u8) -> Result<Counts, AllocError>
    ensures { IfOk result (λ counts. counts ≡ plain.zeros nodes) }
{
    let mut counts = Counts::new(alloc);
    for _ in 0..nodes {
        counts.push(0)?;
    }
    Ok(counts)
}

/// What a variable holds before anything happened.
pub(super) fn least_state(
    alloc: Global,
    graph: &Graph,
    x: u64,
    nodes: u8,
) -> Result<Arc<State>, AllocError>
    requires { x < length graph.now }
    ensures { IfOk result (λ state. held_of (arc_value state) ≡ fresh_state nodes (decl_at graph.now x)) }
{
    let state = graph.at(x).kind.least(alloc, nodes)?;
    Ok(Arc::new(alloc, state)?)
}

/// What all variables hold before anything happened.
pub(super) fn fresh_states(alloc: Global, graph: &Graph, nodes: u8) -> Result<States, AllocError>
    ensures { IfOk result (λ states. states ≡ map (fresh_state nodes) graph.now) }
{
    let mut states = States::new(alloc);
    for x in 0..graph.len() {
        states.push(least_state(alloc, graph, x, nodes)?)?;
    }
    Ok(states)
}

/// Histories of variables to which nothing has happened.
pub(super) fn fresh_histories(alloc: Global, graph: &Graph) -> Result<Vec<History>, AllocError>
    ensures { IfOk result (λ histories. map told histories.items ≡ map (λ d. no_history) graph.now) }
{
    let mut histories = Vec::new(alloc);
    for _ in 0..graph.len() {
        histories.push(History::new(alloc))?;
    }
    Ok(histories)
}

/// A process that has read nothing yet; none of a source.
pub(super) fn fresh_process(kind: &Kind) -> Option<Process>
    ensures base { seen_process result ≡ fresh_base (kind_of kind.now) }
    ensures busy { jobs_of result ≡ 0 }
{
    if kind.is_source() {
        return None;
    }
    Some(Process {
        n: 0,
        base: None,
        busy: 0,
    })
}

/// Whether a process reads two variables.
pub(super) fn has_two(kind: &Kind) -> bool
    ensures { result ≡ has_two (kind_of kind.now) }
{
    matches!(
        kind,
        Kind::Union(_, _) | Kind::Product(_, _) | Kind::Intersection(_, _)
    )
}

/// Processes that have read nothing yet.
pub(super) fn fresh_processes(
    alloc: Global,
    graph: &Graph,
) -> Result<Vec<Option<Process>>, AllocError>
    ensures bases { IfOk result (λ processes. map seen_process processes.items ≡ map (λ d. fresh_base d.kind) graph.now) }
    ensures busy { IfOk result (λ processes. map jobs_of processes.items ≡ map (λ d. 0) graph.now) }
{
    let mut processes = Vec::new(alloc);
    for x in 0..graph.len() {
        processes.push(fresh_process(&graph.at(x).kind))?;
    }
    Ok(processes)
}
