//! Reading a graph: the tree of its bytes, then declaration after declaration, each against those before it.

ghost use Rattle.std.specs.Prelude.{◌≡◌, ◌<◌, [], length, map, IfOk, OnOk};
ghost use Rattle.lasp_graph.specs.Prelude.{view, variable_limit, known, set_checked, inputs_read, input_read, function_read, kind_read, decl_read, next_read, decls_read, tree_read, graph_of, AreInputs, IsNext, lift_op_of, maps_of, predicates_of, lifts_of, library_of, kind_of, decl_of, form_view, Answers, Gives, GivesAt};

use super::decl::Decl;
use super::graph::Graph;
use super::kind::{Kind, LiftRef, MapRef, PredRef};
use super::refused::{DeclRefused, GraphRefused};
use super::written::{Form, written_of};
use lasp_fns::Library;
use lasp_value::Name;
use model_readings::GraphWhy;
use serde_json::Value as Json;
use std::alloc::Global;

/// How many declarations a graph may have.
const VARIABLE_LIMIT: u64 = 64;

/// How wide a variable may be.
const WIDTH_LIMIT: u64 = 16;

/// The graph that the bytes of a file are, in one pass over its declarations. Its functions are found in the library.
#[tactic(auto, using(crate::proofs::Bytes::trees), unfolding(model_readings::specs::Graph::graph_of, model_readings::specs::Tree::json_of))]
pub fn read_graph(alloc: Global, bytes: &[u8], lib: &Library) -> Result<Graph, GraphRefused>
    ensures exact { Gives (λ g. g) result (graph_of (library_of lib.now) bytes.now) }
{
    match Json::from_slice(alloc, bytes) {
        Ok(tree) => read_tree(alloc, &tree, lib),
        Err(e) if e.is_memory() => Err(GraphRefused::Memory),
        Err(_) => Err(GraphRefused::At {
            number: 0,
            why: GraphWhy::NotJson,
        }),
    }
}

/// The declaration that a tree is, against the graph before it. Whether the graph has room for it isn't asked.
#[tactic(auto, unfolding(model_readings::specs::Graph::decl_read))]
pub fn read_decl(alloc: Global, j: &Json, g: &Graph, lib: &Library) -> Result<Decl, DeclRefused>
    ensures exact { Answers decl_of result (decl_read (library_of lib.now) g.now (view j.now)) }
{
    let Some(written) = written_of(j) else {
        return Err(DeclRefused::Shape);
    };
    let Some(name) = Name::of(alloc, written.name)? else {
        return Err(DeclRefused::NameShape);
    };
    if g.find(written.name).is_some() {
        return Err(DeclRefused::NameTaken);
    }
    match read_sound_kind(g, lib, &written.form) {
        Ok(kind) if g.width_of(&kind) <= WIDTH_LIMIT => Ok(Decl { name, kind }),
        Ok(_) => Err(DeclRefused::TooWide),
        Err(refused) => Err(refused),
    }
}

#[tactic(auto, using(crate::proofs::Items::lists), unfolding(model_readings::specs::Graph::tree_read))]
fn read_tree(alloc: Global, tree: &Json, lib: &Library) -> Result<Graph, GraphRefused>
    ensures { Gives (λ g. g) result (tree_read (library_of lib.now) (view tree.now)) }
{
    match tree.as_array() {
        Some(items) => read_items(alloc, items, lib),
        None => Err(GraphRefused::At {
            number: 0,
            why: GraphWhy::Shape,
        }),
    }
}

fn read_items(alloc: Global, items: &[Json], lib: &Library) -> Result<Graph, GraphRefused>
    ensures { Gives (λ g. g) result (decls_read (library_of lib.now) [] (map view items.now)) }
{
    let mut graph = Graph::empty(alloc);
    for j in items {
        match read_next(alloc, j, &graph, lib) {
            Ok(decl) => graph.push(alloc, decl)?,
            Err(refused) => return Err(refused),
        }
    }
    Ok(graph)
}

#[tactic(auto, unfolding(model_readings::specs::Graph::next_read))]
fn read_next(alloc: Global, j: &Json, g: &Graph, lib: &Library) -> Result<Decl, GraphRefused>
    ensures exact { GivesAt (length g.now) decl_of result (next_read (library_of lib.now) g.now (view j.now)) }
    ensures room { OnOk result (length g.now < variable_limit) }
    ensures next { IfOk result (λ d. IsNext g.now (decl_of d)) }
{
    let number = g.len();
    if number >= VARIABLE_LIMIT {
        return Err(GraphRefused::At {
            number: number as u32,
            why: GraphWhy::TooMany,
        });
    }
    match read_decl(alloc, j, g, lib) {
        Ok(decl) => Ok(decl),
        Err(refused) => Err(refused.at(number)),
    }
}

/// A kind, whose inputs are sets of the graph.
fn read_sound_kind(g: &Graph, lib: &Library, form: &Form) -> Result<Kind, DeclRefused>
    ensures exact { Answers kind_of result (kind_read (library_of lib.now) g.now (form_view form.now)) }
    ensures inputs { IfOk result (λ k. AreInputs g.now (kind_of k)) }
{
    read_kind(g, lib, form)
}

fn read_kind(g: &Graph, lib: &Library, form: &Form) -> Result<Kind, DeclRefused>
    ensures { Answers kind_of result (kind_read (library_of lib.now) g.now (form_view form.now)) }
{
    match form {
        Form::OrSet => Ok(Kind::OrSet),
        Form::GSet => Ok(Kind::GSet),
        Form::Counter => Ok(Kind::Counter),
        Form::MaxReg => Ok(Kind::MaxReg),
        Form::Union(x, y) => {
            let (i, j) = read_inputs(g, x, y)?;
            Ok(Kind::Union(i, j))
        }
        Form::Product(x, y) => {
            let (i, j) = read_inputs(g, x, y)?;
            Ok(Kind::Product(i, j))
        }
        Form::Intersection(x, y) => {
            let (i, j) = read_inputs(g, x, y)?;
            Ok(Kind::Intersection(i, j))
        }
        Form::Map(x, f) => {
            let i = read_input(g, x)?;
            Ok(Kind::Map(i, read_map(lib, f)?))
        }
        Form::Filter(x, p) => {
            let i = read_input(g, x)?;
            Ok(Kind::Filter(i, read_predicate(lib, p)?))
        }
        Form::Fold(x, op, l) => {
            let i = read_input(g, x)?;
            Ok(Kind::Fold(i, *op, read_lift(lib, l)?))
        }
    }
}

/// Both inputs, where both are known and then both are sets.
#[tactic(auto, unfolding(model_readings::specs::Graph::inputs_read))]
fn read_inputs(g: &Graph, x: &str, y: &str) -> Result<(u8, u8), DeclRefused>
    ensures { Answers (λ p. p) result (inputs_read g.now x.now y.now) }
{
    let i = known(g, x)?;
    let j = known(g, y)?;
    check_set(g, i)?;
    check_set(g, j)?;
    Ok((i, j))
}

/// The input, where it is known and then a set.
#[tactic(auto, unfolding(model_readings::specs::Graph::input_read))]
fn read_input(g: &Graph, x: &str) -> Result<u8, DeclRefused>
    ensures { Answers (λ i. i) result (input_read g.now x.now) }
{
    let i = known(g, x)?;
    check_set(g, i)?;
    Ok(i)
}

/// A map function of the library, with a copy of its operations.
#[tactic(auto, unfolding(model_readings::specs::Graph::function_read, model_readings::specs::Graph::function_named))]
fn read_map(lib: &Library, name: &str) -> Result<MapRef, DeclRefused>
    ensures { Answers (λ f. (f.place, f.ops)) result (function_read (maps_of lib.now) name.now) }
{
    let Some(place) = lib.find_map(name) else {
        return Err(DeclRefused::UnknownFunction);
    };
    let Some(ops) = lib.map_ops(place) else {
        return Err(DeclRefused::UnknownFunction);
    };
    Ok(MapRef {
        place,
        ops: ops.try_clone()?,
    })
}

/// A predicate of the library, with a copy of its operations.
#[tactic(auto, unfolding(model_readings::specs::Graph::function_read, model_readings::specs::Graph::function_named))]
fn read_predicate(lib: &Library, name: &str) -> Result<PredRef, DeclRefused>
    ensures { Answers (λ p. (p.place, p.ops)) result (function_read (predicates_of lib.now) name.now) }
{
    let Some(place) = lib.find_pred(name) else {
        return Err(DeclRefused::UnknownFunction);
    };
    let Some(ops) = lib.pred_ops(place) else {
        return Err(DeclRefused::UnknownFunction);
    };
    Ok(PredRef {
        place,
        ops: ops.try_clone()?,
    })
}

/// A lift of the library, with its operation.
#[tactic(auto, unfolding(model_readings::specs::Graph::function_read, model_readings::specs::Graph::function_named))]
fn read_lift(lib: &Library, name: &str) -> Result<LiftRef, DeclRefused>
    ensures { Answers (λ l. (l.place, lift_op_of l.op)) result (function_read (lifts_of lib.now) name.now) }
{
    let Some(place) = lib.find_lift(name) else {
        return Err(DeclRefused::UnknownFunction);
    };
    let Some(op) = lib.lift_op(place) else {
        return Err(DeclRefused::UnknownFunction);
    };
    Ok(LiftRef { place, op: *op })
}

fn known(g: &Graph, name: &str) -> Result<u8, DeclRefused>
    ensures exact { Answers (λ x. x) result (known g.now name.now) }
    ensures within { IfOk result (λ x. x < length g.now) }
{
    match g.find(name) {
        Some(x) => Ok(x),
        None => Err(DeclRefused::UnknownInput),
    }
}

fn check_set(g: &Graph, x: u8) -> Result<(), DeclRefused>
    requires { x < length g.now }
    ensures { Answers (λ u. u) result (set_checked g.now x) }
{
    if g.at(x as u64).kind.is_set() {
        Ok(())
    } else {
        Err(DeclRefused::WrongKind)
    }
}
