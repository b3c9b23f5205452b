//! What a graph tells of its variables, which libraries it fits, and what its processes make of two sets.

ghost use Rattle.std.specs.Prelude.{◌≡◌, ◌≤◌, IfOk};
ghost use Rattle.std.specs.Arc.{arc_value};
ghost use Rattle.model_states.specs.Content.{size_of, row_limit};
ghost use Rattle.model_states.specs.Threshold.{set};
ghost use Rattle.model_graph.specs.Width.{HasWidth};
ghost use Rattle.lasp_state.specs.State.{content_of, shape_of};
ghost use Rattle.lasp_graph.specs.Evaluated as evaluated;

use crate::made::{Rows, library_of, no_calls, rows, spells};
use lasp_fns::{Library, MapOp, StepLib};
use lasp_graph::{EvalRefused, Graph, Inputs, eval_node, read_graph};
use lasp_state::State;
use std::alloc::{AllocError, Global};
use std::sync::Arc;
use std::test::Fail;

/// Whether a graph fits a library, by its own call and by that of a library that counts.
fn both_fit(graph: &Graph, library: &Library) -> (bool, bool) {
    (
        graph.fits(library),
        graph.fits_steps(&StepLib::new(library)),
    )
}

/// Whether it fits a library whose maps are of this operation.
fn fits_maps_of(alloc: Global, graph: &Graph, op: MapOp) -> Result<(bool, bool), AllocError> {
    let library = library_of(alloc, op, &no_calls(alloc)?)?;
    Ok(both_fit(graph, &library))
}

const GRAPH: &str =
    r#"[["a","orset"],["b","orset"],["p","product","a","b"],["m","map","a","plain"]]"#;

/// The graph of two sources, their product and a map that makes absolute numbers.
fn graph_of_map(alloc: Global) -> Result<Graph, Fail> {
    let library = library_of(alloc, MapOp::Abs, &no_calls(alloc)?)?;
    Ok(read_graph(alloc, GRAPH.as_bytes(), &library)?)
}

/// Whether a graph finds its variables by their names, and tells what they are.
fn is_told(graph: &Graph) -> bool {
    graph.len() == 4
        && graph.find("m") == Some(3)
        && graph.find("u") == None
        && graph.width(2) == 2
        && graph.at(2).kind.inputs() == Some((0, 1))
        && graph.at(3).kind.is_set()
}

#[test]
fn a_graph_fits_where_its_functions_have_the_same_operations(rt: HostRuntime) -> Result<(), Fail> {
    let alloc = rt.alloc();
    let graph = graph_of_map(alloc)?;
    assert!(rt; is_told(&graph));
    assert!(rt; fits_maps_of(alloc, &graph, MapOp::Abs)? == (true, true));
    assert!(rt; fits_maps_of(alloc, &graph, MapOp::Neg)? == (false, false));
    assert!(rt; both_fit(&graph, &Library::new(alloc)) == (false, false));
    Ok(())
}

/// The states of two sets of rows.
fn inputs_of(alloc: Global, first: Rows, second: Rows) -> Result<Inputs, AllocError>
    ensures sets { IfOk result (λ i. (shape_of (arc_value i.first) ≡ set) × (shape_of (evaluated.second_of i) ≡ set)) }
    ensures width { IfOk result (λ i. HasWidth 16 (content_of (arc_value i.first))) }
    ensures small { IfOk result (λ i. size_of (content_of (arc_value i.first)) ≤ row_limit) }
{
    let first = Arc::new(alloc, State::Set(rows(alloc, first)?))?;
    let second = Arc::new(alloc, State::Set(rows(alloc, second)?))?;
    Ok(Inputs {
        first,
        second: Some(second),
    })
}

/// Whether a derived variable of a graph that fits a library has these rows where its inputs are two sets.
fn makes(
    alloc: Global,
    graph: &Graph,
    library: &Library,
    var: u8,
    expected: &str,
) -> Result<bool, EvalRefused> {
    if u64::from(var) >= graph.len()
        || graph.at(u64::from(var)).kind.is_source()
        || !graph.fits(library)
    {
        return Ok(false);
    }
    let inputs = inputs_of(alloc, &[(-2, 1, false), (3, 2, true)], &[(5, 3, false)])?;
    match eval_node(alloc, graph, library, var, &inputs)? {
        State::Set(made) => Ok(spells(alloc, &made, expected)?),
        _ => Ok(false),
    }
}

#[test]
fn a_product_and_a_map_are_evaluated_from_scratch(rt: HostRuntime) -> Result<(), Fail> {
    let alloc = rt.alloc();
    let told = {
        let graph = graph_of_map(alloc)?;
        let library = library_of(alloc, MapOp::Abs, &no_calls(alloc)?)?;
        (
            makes(alloc, &graph, &library, 2, "[-2,5]@0.1+0.3 [3,5]@0.2+0.3x "),
            makes(alloc, &graph, &library, 3, "2@0.1 3@0.2x "),
        )
    };
    assert!(rt; matches!(told, (Ok(true), Ok(true))));
    Ok(())
}
