//! One process on its inputs.

ghost use Rattle.std.specs.Prelude.{◌≡◌, ◌<◌, ◌≤◌, Err, Some, IfOk, IsFalse, length};
ghost use Rattle.lasp_graph.specs.Prelude.{mapped, passes, operations_at, map_set, filter_set, of_set, size_of, row_limit, set, fold, is_source, IsFoldOp, IsKind, fold_rows, HasWidth, Fits, lift_of, lift_op_of, maps_of, predicates_of, lifts_of, IsWithinLimits, IsSetOfWidth, content_of, number_of, library_of, kind_of, process, Becomes, seen, derived_shape, number_by};
ghost use Rattle.lasp_state.specs.State.{shape_of};
ghost use Rattle.lasp_graph.specs.Kind.{fold_op_of};

use super::inputs::EvalRefused;
use super::kind::{FoldOp, Kind, LiftRef, MapRef, PredRef};
use lasp_fns::{Library, StoredLift};
use lasp_logset::OrSet;
use lasp_setops::{
    Modulo, SetRefused, Sum, Xor, filter_set, fold_all, intersect_sets, map_set, product_sets,
    union_sets,
};
use lasp_state::State;
use std::alloc::{AllocError, Global};

/// The state of a process of this kind on two sets, of which a process over one reads the first.
pub(crate) fn eval_process(
    alloc: Global,
    kind: &Kind,
    lib: &Library,
    x: &State,
    y: &State,
) -> Result<State, EvalRefused>
    requires derived { IsFalse (is_source (kind_of kind.now)) }
    requires fits { Fits (library_of lib.now) (kind_of kind.now) }
    requires sound { IsKind (kind_of kind.now) }
    requires first { shape_of x.now ≡ set }
    requires second { shape_of y.now ≡ set }
    requires width { HasWidth 16 (content_of x.now) }
    requires small { size_of (content_of x.now) ≤ row_limit }
    ensures content { Becomes (seen content_of result) (process (kind_of kind.now) (content_of x.now) (content_of y.now)) }
    ensures shape { IfOk result (λ s. shape_of s ≡ derived_shape (kind_of kind.now)) }
    ensures number { IfOk result (λ s. number_of s ≡ number_by (kind_of kind.now) (content_of s)) }
{
    match (x, y) {
        (State::Set(x), State::Set(y)) => process(alloc, kind, lib, x, y),
        (_, _) => unreachable!(),
    }
}

/// The same on the sets themselves.
fn process(
    alloc: Global,
    kind: &Kind,
    lib: &Library,
    x: &OrSet,
    y: &OrSet,
) -> Result<State, EvalRefused>
    requires derived { IsFalse (is_source (kind_of kind.now)) }
    requires fits { Fits (library_of lib.now) (kind_of kind.now) }
    requires sound { IsKind (kind_of kind.now) }
    requires width { IsSetOfWidth 16 x.now }
    requires small { length x.now ≤ row_limit }
    ensures content { Becomes (seen content_of result) (process (kind_of kind.now) (of_set x.now) (of_set y.now)) }
    ensures shape { IfOk result (λ s. shape_of s ≡ derived_shape (kind_of kind.now)) }
    ensures number { IfOk result (λ s. number_of s ≡ number_by (kind_of kind.now) (content_of s)) }
{
    match kind {
        Kind::Fold(_, op, l) => match folded_set(lib, op, l, x) {
            Ok(fold) => Ok(fold),
            Err(_) => Err(EvalRefused::Memory),
        },
        _ => match process_sets(alloc, kind, lib, x, y) {
            Ok(set) => Ok(State::Set(set)),
            Err(SetRefused::TooManyRows) => Err(EvalRefused::TooManyRows),
            Err(SetRefused::Memory) => Err(EvalRefused::Memory),
        },
    }
}

fn process_sets(
    alloc: Global,
    kind: &Kind,
    lib: &Library,
    x: &OrSet,
    y: &OrSet,
) -> Result<OrSet, SetRefused>
    requires derived { IsFalse (is_source (kind_of kind.now)) }
    requires set { derived_shape (kind_of kind.now) ≡ set }
    requires fits { Fits (library_of lib.now) (kind_of kind.now) }
    requires width { IsSetOfWidth 16 x.now }
    requires small { length x.now ≤ row_limit }
    ensures ok { IfOk result (λ s. process (kind_of kind.now) (of_set x.now) (of_set y.now) ≡ of_set s) }
    ensures small { IfOk result (λ s. length s ≤ row_limit) }
    ensures too_many { result ≡ Err SetRefused.TooManyRows → row_limit < size_of (process (kind_of kind.now) (of_set x.now) (of_set y.now)) }
{
    match kind {
        Kind::Union(_, _) => union_sets(x, y),
        Kind::Product(_, _) => product_sets(alloc, x, y),
        Kind::Intersection(_, _) => intersect_sets(alloc, x, y),
        Kind::Map(_, f) => match mapped_set(alloc, lib, f, x) {
            Ok(set) => Ok(set),
            Err(_) => Err(SetRefused::Memory),
        },
        Kind::Filter(_, p) => match filtered_set(lib, p, x) {
            Ok(set) => Ok(set),
            Err(_) => Err(SetRefused::Memory),
        },
        _ => unreachable!(),
    }
}

/// What a function of the library makes of a set; it has no more rows.
fn mapped_set(alloc: Global, lib: &Library, f: &MapRef, x: &OrSet) -> Result<OrSet, AllocError>
    requires fits { operations_at (maps_of lib.now) f.now.place ≡ Some f.now.ops }
    requires width { IsSetOfWidth 16 x.now }
    ensures ok { IfOk result (λ s. s ≡ map_set (mapped f.now.ops) x.now) }
    ensures small { length (map_set (mapped f.now.ops) x.now) ≤ length x.now }
{
    map_set(alloc, lib.map_at(f.place), x)
}

/// The rows of a set that pass a test of the library.
fn filtered_set(lib: &Library, p: &PredRef, x: &OrSet) -> Result<OrSet, AllocError>
    requires fits { operations_at (predicates_of lib.now) p.now.place ≡ Some p.now.ops }
    requires width { IsSetOfWidth 16 x.now }
    ensures ok { IfOk result (λ s. s ≡ filter_set (passes p.now.ops) x.now) }
    ensures small { length (filter_set (passes p.now.ops) x.now) ≤ length x.now }
{
    filter_set(lib.pred_at(p.place), x)
}

/// The fold of a set by a lift of the library. It covers the rows without a table, so that the input has its table alone.
fn folded_set(lib: &Library, op: &FoldOp, l: &LiftRef, x: &OrSet) -> Result<State, AllocError>
    requires fits { operations_at (lifts_of lib.now) l.now.place ≡ Some (lift_op_of l.now.op) }
    requires sound { IsFoldOp (fold_op_of op.now) }
    requires width { IsSetOfWidth 16 x.now }
    requires small { length x.now ≤ row_limit }
    ensures content { IfOk result (λ s. content_of s ≡ of_set x.now) }
    ensures shape { IfOk result (λ s. shape_of s ≡ fold) }
    ensures number { IfOk result (λ s. number_of s ≡ fold_rows (fold_op_of op.now) (lift_op_of l.now.op) x.now) }
{
    let number = fold_number(op, lib.lift_at(l.place), x)?;
    Ok(State::Fold(x.past()?, number))
}

/// The number of a fold.
fn fold_number(op: &FoldOp, lift: &StoredLift, x: &OrSet) -> Result<i128, AllocError>
    requires sound { IsFoldOp (fold_op_of op.now) }
    requires limits { IsWithinLimits x.now }
    ensures { IfOk result (λ n. n ≡ fold_rows (fold_op_of op.now) (lift_of lift.now) x.now) }
{
    match op {
        FoldOp::Sum => fold_all(&Sum, lift, x),
        FoldOp::Xor => fold_all(&Xor, lift, x),
        FoldOp::Modulo(n) => fold_all(&Modulo::new(*n), lift, x),
    }
}
