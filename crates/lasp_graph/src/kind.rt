//! What a variable is.

ghost use Rattle.std.specs.Prelude.{◌≡◌, pos, IfOk};
ghost use Rattle.lasp_graph.specs.Prelude.{is_set, is_source, least_of, kind_of, inputs_of};
ghost use Rattle.model_graph.specs.Lawful.{shape_of};
ghost use Rattle.lasp_state.specs.State as state;

use lasp_fns::{LiftOp, MapOps, PredOps};
use lasp_state::State;
use std::alloc::{AllocError, Global};

/// A map function of the library: its place there, and the operations that stand at it.
#[derive(Drop)]
pub struct MapRef {
    /// The place, counted from 0.
    pub place: u32,
    /// The operations whose meaning the function has.
    pub ops: MapOps,
}

/// A predicate of the library: its place there, and the operations that stand at it.
#[derive(Drop)]
pub struct PredRef {
    /// The place, counted from 0.
    pub place: u32,
    /// The operations whose meaning the predicate has.
    pub ops: PredOps,
}

/// A lift of the library: its place there, and the operation that stands at it.
#[derive(Clone, Copy, Drop)]
pub struct LiftRef {
    /// The place, counted from 0.
    pub place: u32,
    /// The operation whose meaning the lift has.
    pub op: LiftOp,
}

/// How a fold combines the numbers of the visible values.
#[derive(Clone, Copy, Drop)]
pub enum FoldOp {
    /// Their sum.
    Sum,
    /// The xor of their bits, in 128 bits.
    Xor,
    /// The remainder of their sum by this number, which is 1 at least in a graph.
    Modulo(u32),
}

/// What a variable is: a source, or a process over earlier variables, which are named by their numbers.
#[derive(Drop)]
pub enum Kind {
    /// A source: an observed-remove set.
    OrSet,
    /// A source: a grow-only set.
    GSet,
    /// A source: a grow-only counter.
    Counter,
    /// A source: a register that keeps the greatest number.
    MaxReg,
    /// The union of two sets.
    Union(u8, u8),
    /// The pairs of a value of the first and a value of the second set.
    Product(u8, u8),
    /// The values that both sets have.
    Intersection(u8, u8),
    /// What a function makes of the values of a set.
    Map(u8, MapRef),
    /// The values of a set that pass a test.
    Filter(u8, PredRef),
    /// The number that the lifts of a set's visible values combine to.
    Fold(u8, FoldOp, LiftRef),
}

impl MapRef {
    /// The same function, with a copy of its operations.
    pub fn try_clone(&self) -> Result<MapRef, AllocError>
        ensures { IfOk result (λ f. f ≡ self.now) }
    {
        Ok(MapRef {
            place: self.place,
            ops: self.ops.try_clone()?,
        })
    }
}

impl PredRef {
    /// The same predicate, with a copy of its operations.
    pub fn try_clone(&self) -> Result<PredRef, AllocError>
        ensures { IfOk result (λ p. p ≡ self.now) }
    {
        Ok(PredRef {
            place: self.place,
            ops: self.ops.try_clone()?,
        })
    }
}

impl Kind {
    /// Whether the variable's content is a set with tokens, which may be an input.
    pub fn is_set(&self) -> bool
        ensures { result ≡ is_set (kind_of self.now) }
    {
        match self {
            Kind::GSet | Kind::Counter | Kind::MaxReg | Kind::Fold(_, _, _) => false,
            _ => true,
        }
    }

    /// Whether the variable is a source, which updates change.
    pub fn is_source(&self) -> bool
        ensures { result ≡ is_source (kind_of self.now) }
    {
        match self {
            Kind::OrSet | Kind::GSet | Kind::Counter | Kind::MaxReg => true,
            _ => false,
        }
    }

    /// The inputs of a process; a process over one set has it as both. None of a source.
    pub fn inputs(&self) -> Option<(u8, u8)>
        ensures { result ≡ inputs_of (kind_of self.now) }
    {
        match self {
            Kind::Union(x, y) => Some((*x, *y)),
            Kind::Product(x, y) => Some((*x, *y)),
            Kind::Intersection(x, y) => Some((*x, *y)),
            Kind::Map(x, _) => Some((*x, *x)),
            Kind::Filter(x, _) => Some((*x, *x)),
            Kind::Fold(x, _, _) => Some((*x, *x)),
            _ => None,
        }
    }

    /// An equal kind, with a copy of the operations of its function.
    pub fn try_clone(&self) -> Result<Kind, AllocError>
        ensures { IfOk result (λ k. kind_of k ≡ kind_of self.now) }
    {
        match self {
            Kind::OrSet => Ok(Kind::OrSet),
            Kind::GSet => Ok(Kind::GSet),
            Kind::Counter => Ok(Kind::Counter),
            Kind::MaxReg => Ok(Kind::MaxReg),
            Kind::Union(x, y) => Ok(Kind::Union(*x, *y)),
            Kind::Product(x, y) => Ok(Kind::Product(*x, *y)),
            Kind::Intersection(x, y) => Ok(Kind::Intersection(*x, *y)),
            Kind::Map(x, f) => Ok(Kind::Map(*x, f.try_clone()?)),
            Kind::Filter(x, p) => Ok(Kind::Filter(*x, p.try_clone()?)),
            Kind::Fold(x, op, l) => Ok(Kind::Fold(*x, *op, *l)),
        }
    }

    /// The state of such a variable before anything happened, among so many nodes.
    pub fn least(&self, alloc: Global, nodes: u8) -> Result<State, AllocError>
        ensures content { IfOk result (λ s. state.content_of s ≡ least_of nodes (kind_of self.now)) }
        ensures shape { IfOk result (λ s. state.shape_of s ≡ shape_of nodes (kind_of self.now)) }
        ensures number { IfOk result (λ s. state.number_of s ≡ pos 0) }
    {
        match self {
            Kind::GSet => Ok(State::no_elements(alloc)),
            Kind::Counter => State::zero_count(alloc, nodes),
            Kind::MaxReg => Ok(State::no_number()),
            Kind::Fold(_, _, _) => Ok(State::empty_fold(alloc)),
            _ => Ok(State::empty_set(alloc)),
        }
    }
}
