//! A library of one function, and graphs over it.

ghost use Rattle.std.specs.Prelude.{◌≡◌, IfOk};
ghost use Rattle.std.specs.Arc.{arc_value};
ghost use Rattle.model_values.specs.Size.{IsSized};
ghost use Rattle.model_readings.specs.Lawful.{FitsAll};
ghost use Rattle.lasp_value.specs.Value.{val_of};
ghost use Rattle.lasp_fns.specs.Answers.{Answers};
ghost use Rattle.lasp_graph.specs.Library.{library_of};

use crate::wrong::Wrong;
use lasp_fns::{Library, MapOp, MapOps, StoredMap, apply_map};
use lasp_graph::{Graph, read_graph};
use lasp_value::Value;
use std::alloc::{AllocError, Global};
use std::sync::Arc;

/// The map function that leaves out signs.
fn abs(alloc: Global) -> Result<StoredMap, AllocError> {
    let mut steps = MapOps::new(alloc);
    steps.push(MapOp::Abs)?;
    let mine = steps.try_clone()?;
    let f = move |v: &Value| -> Result<Value, AllocError>
        requires { IsSized (val_of v.now) }
        ensures { Answers mine (val_of v.entry.now) result }
    { apply_map(alloc, &mine, v) };
    Ok(StoredMap::new(steps, Box::new(alloc, f)?))
}

/// The library of `abs`.
pub fn library(alloc: Global) -> Result<Library, Wrong> {
    let mut lib = Library::new(alloc);
    lib.add_map("abs", abs(alloc)?)?;
    Ok(lib)
}

/// A graph over a library.
pub fn graph_of(alloc: Global, text: &str, lib: &Library) -> Result<Arc<Graph>, Wrong>
    ensures { IfOk result (λ g. FitsAll (library_of lib.now) (arc_value g)) }
{
    let graph = read_graph(alloc, text.as_bytes(), lib)?;
    if !graph.fits(lib) {
        return Err(Wrong);
    }
    Ok(Arc::new(alloc, graph)?)
}
