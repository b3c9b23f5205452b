//! Whether a graph's functions are those of a library.

ghost use Rattle.std.specs.Prelude.{◌≡◌, ◌↔◌, IsTrue, Some, option_copied};
ghost use Rattle.lasp_graph.specs.Prelude.{Fits, FitsAll, lift_op_of, kind_of, library_of};
ghost use Rattle.std.specs.Option.{option_map};
ghost use Rattle.lasp_fns.specs.Steps as counted;

use super::graph::Graph;
use super::kind::{Kind, LiftRef, MapRef, PredRef};
use lasp_fns::{Library, LiftOp, MapOps, PredOps, StepLib};

impl Graph {
    /// Whether the library has each function of the graph at its place, with the same operations. It costs the operations of the graph's functions.
    pub fn fits(&self, lib: &Library) -> bool
        ensures { IsTrue result ↔ FitsAll (library_of lib.now) self.now }
    {
        for var in 0..self.len() {
            if !self.at(var).kind.fits(lib) {
                return false;
            }
        }
        true
    }

    /// Whether the library whose calls are counted has each function of the graph at its place. It counts no call.
    pub fn fits_steps(&self, lib: &StepLib) -> bool
        ensures { IsTrue result ↔ FitsAll (library_of (counted.library_of lib.now)) self.now }
    {
        for var in 0..self.len() {
            if !self.at(var).kind.fits_steps(lib) {
                return false;
            }
        }
        true
    }
}

impl Kind {
    /// Whether the library has the function of this kind, where it has one, at its place.
    fn fits(&self, lib: &Library) -> bool
        ensures { IsTrue result ↔ Fits (library_of lib.now) (kind_of self.now) }
    {
        match self {
            Kind::OrSet | Kind::GSet | Kind::Counter | Kind::MaxReg => true,
            Kind::Union(_, _) | Kind::Product(_, _) | Kind::Intersection(_, _) => true,
            Kind::Map(_, f) => is_map(lib.map_ops(f.place), f),
            Kind::Filter(_, p) => is_predicate(lib.pred_ops(p.place), p),
            Kind::Fold(_, _, l) => is_lift(lib.lift_op(l.place), l),
        }
    }

    /// The same of a library whose calls are counted.
    fn fits_steps(&self, lib: &StepLib) -> bool
        ensures { IsTrue result ↔ Fits (library_of (counted.library_of lib.now)) (kind_of self.now) }
    {
        match self {
            Kind::OrSet | Kind::GSet | Kind::Counter | Kind::MaxReg => true,
            Kind::Union(_, _) | Kind::Product(_, _) | Kind::Intersection(_, _) => true,
            Kind::Map(_, f) => is_map(lib.map_ops(f.place), f),
            Kind::Filter(_, p) => is_predicate(lib.pred_ops(p.place), p),
            Kind::Fold(_, _, l) => is_lift(lib.lift_op(l.place), l),
        }
    }
}

/// Whether these are the operations of a graph's map function.
fn is_map(found: Option<&MapOps>, f: &MapRef) -> bool
    ensures { IsTrue result ↔ (option_copied found.entry ≡ Some f.now.ops) }
{
    match found {
        Some(ops) => ops.is_same(&f.ops),
        None => false,
    }
}

/// Whether these are the conditions of a graph's predicate.
fn is_predicate(found: Option<&PredOps>, p: &PredRef) -> bool
    ensures { IsTrue result ↔ (option_copied found.entry ≡ Some p.now.ops) }
{
    match found {
        Some(ops) => ops.is_same(&p.ops),
        None => false,
    }
}

/// Whether this is the operation of a graph's lift.
fn is_lift(found: Option<&LiftOp>, l: &LiftRef) -> bool
    ensures { IsTrue result ↔ (option_map (λ op. lift_op_of op.now) found.entry ≡ Some (lift_op_of l.now.op)) }
{
    match found {
        Some(op) => op.is_same(&l.op),
        None => false,
    }
}
