//! What one process gains after its inputs changed, on the sets themselves.

ghost use Rattle.std.specs.Prelude.{◌≡◌, ◌+◌, ◌<◌, ◌≤◌, Err, Some, IfOk, IsFalse, length};
ghost use Rattle.lasp_graph.specs.Prelude.{mapped, passes, operations_at, join, of_rows, map_set, filter_set, of_set, size_of, row_limit, set, fold, is_source, IsFoldOp, IsKind, fold_rows, IsChange, Fits, lift_op_of, maps_of, predicates_of, lifts_of, lift_op_at, IsWithinLimits, IsSetOfWidth, content_of, number_of, library_of, kind_of, process, Becomes, seen, derived_shape, number_by, IsStateBefore, IsSetBefore, gained};
ghost use Rattle.lasp_fns.specs.Steps as counted;
ghost use Rattle.lasp_state.specs.State.{shape_of};
ghost use Rattle.lasp_graph.specs.Kind.{fold_op_of};

use super::inputs::EvalRefused;
use super::kind::{FoldOp, Kind, LiftRef, MapRef, PredRef};
use lasp_fns::StepLib;
use lasp_logset::{Entry, OrSet, RowList};
use lasp_setops::{
    Modulo, Pairing, SetRefused, Sum, Xor, filter_counted, filter_rows, fold_increment,
    map_counted, map_rows, pair_gain, share_rows, union_rows, union_sets,
};
use lasp_state::State;
use std::alloc::{AllocError, Global};

/// What a process became after its inputs changed, and what it gained by it.
#[derive(Drop)]
pub struct Gain {
    /// Its state on its inputs.
    pub state: State,
    /// The rows that, joined into those it had, give the state's rows: exactly what the changed rows of its inputs give. Some of them it may have had before.
    pub rows: OrSet,
}

/// What a process gained after its inputs changed.
#[derive(Drop)]
pub struct RowsGained {
    /// The rows that, joined into those it had, give the rows that it has on its inputs: exactly what the changed rows of its inputs give, in any order. Some of them it may have had before, and a key may come twice.
    pub rows: Vec<Entry>,
    /// Its number on its inputs where it is a fold, else 0.
    pub number: i128,
}

/// What a process of this kind on two sets gains, from its state before and the rows that changed in each since. A process over one set reads the first.
pub(crate) fn eval_gain(
    alloc: Global,
    kind: &Kind,
    lib: &mut StepLib,
    old: &State,
    x: &OrSet,
    x_change: &OrSet,
    y: &OrSet,
    y_change: &OrSet,
) -> Result<Gain, EvalRefused>
    requires derived { IsFalse (is_source (kind_of kind.now)) }
    requires fits { Fits (library_of (counted.library_of lib.old)) (kind_of kind.now) }
    requires sound { IsKind (kind_of kind.now) }
    requires old { IsStateBefore (kind_of kind.now) x_change.now x.now y_change.now y.now old.now }
    requires width { IsSetOfWidth 16 x.now }
    requires small { length x.now ≤ row_limit }
    ensures content { Becomes (seen (λ a. content_of a.state) result) (process (kind_of kind.now) (of_set x.now) (of_set y.now)) }
    ensures shape { IfOk result (λ a. shape_of a.state ≡ derived_shape (kind_of kind.now)) }
    ensures number { IfOk result (λ a. number_of a.state ≡ number_by (kind_of kind.now) (content_of a.state)) }
    ensures gain { IfOk result (λ a. join (content_of old.now).rows a.rows ≡ (content_of a.state).rows) }
    ensures rows { IfOk result (λ a. a.rows ≡ gained (kind_of kind.now) x_change.now x.now y_change.now y.now) }
    ensures library { counted.library_of lib.new ≡ counted.library_of lib.old }
    ensures ticks { counted.ticks_of lib.new ≤ counted.ticks_of lib.old + length x_change.now }
{
    match (kind, old) {
        (Kind::Fold(_, op, l), State::Fold(before, number)) => {
            match fold_gain(lib, op, l, *number, before, x_change, x) {
                Ok(gain) => Ok(gain),
                Err(_) => Err(EvalRefused::Memory),
            }
        }
        (_, State::Set(before)) => {
            match set_gain(alloc, kind, lib, before, x, x_change, y, y_change) {
                Ok((set, rows)) => Ok(Gain {
                    state: State::Set(set),
                    rows,
                }),
                Err(SetRefused::TooManyRows) => Err(EvalRefused::TooManyRows),
                Err(SetRefused::Memory) => Err(EvalRefused::Memory),
            }
        }
        (_, _) => unreachable!(),
    }
}

/// The rows that a process of this kind on two sets gains, and its number if it is a fold, from its state before and the rows that changed in each since. No state is made.
pub(crate) fn eval_rows_gained(
    alloc: Global,
    kind: &Kind,
    lib: &mut StepLib,
    old: &State,
    x: &OrSet,
    x_change: &RowList,
    y: &OrSet,
    y_change: &RowList,
) -> Result<RowsGained, EvalRefused>
    requires derived { IsFalse (is_source (kind_of kind.now)) }
    requires fits { Fits (library_of (counted.library_of lib.old)) (kind_of kind.now) }
    requires sound { IsKind (kind_of kind.now) }
    requires old { IsStateBefore (kind_of kind.now) x_change.now x.now y_change.now y.now old.now }
    requires width { IsSetOfWidth 16 x.now }
    requires small { length x.now ≤ row_limit }
    ensures rows { IfOk result (λ a. of_rows a.rows.items ≡ gained (kind_of kind.now) x_change.now x.now y_change.now y.now) }
    ensures whole { IfOk result (λ a. process (kind_of kind.now) (of_set x.now) (of_set y.now) ≡ of_set (join (content_of old.now).rows (of_rows a.rows.items))) }
    ensures number { IfOk result (λ a. a.number ≡ number_by (kind_of kind.now) (process (kind_of kind.now) (of_set x.now) (of_set y.now))) }
    ensures large { result ≡ Err EvalRefused.TooManyRows → row_limit < size_of (process (kind_of kind.now) (of_set x.now) (of_set y.now)) }
    ensures library { counted.library_of lib.new ≡ counted.library_of lib.old }
    ensures ticks { counted.ticks_of lib.new ≤ counted.ticks_of lib.old + length x_change.now }
{
    match (kind, old) {
        (Kind::Fold(_, op, l), State::Fold(before, number)) => {
            match fold_rows_gained(alloc, lib, op, l, *number, before, x_change, x) {
                Ok(gained) => Ok(gained),
                Err(_) => Err(EvalRefused::Memory),
            }
        }
        (_, State::Set(before)) => {
            match set_rows_gained(alloc, kind, lib, before, x, x_change, y, y_change) {
                Ok(rows) => Ok(RowsGained { rows, number: 0 }),
                Err(SetRefused::TooManyRows) => Err(EvalRefused::TooManyRows),
                Err(SetRefused::Memory) => Err(EvalRefused::Memory),
            }
        }
        (_, _) => unreachable!(),
    }
}

/// The rows that a process gains that gives a set.
fn set_rows_gained(
    alloc: Global,
    kind: &Kind,
    lib: &mut StepLib,
    old: &OrSet,
    x: &OrSet,
    x_change: &RowList,
    y: &OrSet,
    y_change: &RowList,
) -> Result<Vec<Entry>, SetRefused>
    requires derived { IsFalse (is_source (kind_of kind.now)) }
    requires set { derived_shape (kind_of kind.now) ≡ set }
    requires fits { Fits (library_of (counted.library_of lib.old)) (kind_of kind.now) }
    requires old { IsSetBefore (kind_of kind.now) x_change.now x.now y_change.now y.now old.now }
    requires width { IsSetOfWidth 16 x.now }
    ensures rows { IfOk result (λ rows. of_rows rows.items ≡ gained (kind_of kind.now) x_change.now x.now y_change.now y.now) }
    ensures whole { IfOk result (λ rows. process (kind_of kind.now) (of_set x.now) (of_set y.now) ≡ of_set (join old.now (of_rows rows.items))) }
    ensures too_many { result ≡ Err SetRefused.TooManyRows → row_limit < size_of (process (kind_of kind.now) (of_set x.now) (of_set y.now)) }
    ensures library { counted.library_of lib.new ≡ counted.library_of lib.old }
    ensures ticks { counted.ticks_of lib.new ≤ counted.ticks_of lib.old + length x_change.now }
{
    gained_list(alloc, kind, lib, x, x_change, y, y_change)
}

/// The rows that a fold covers more, and its number with them.
fn fold_rows_gained(
    alloc: Global,
    lib: &mut StepLib,
    op: &FoldOp,
    l: &LiftRef,
    old: i128,
    before: &OrSet,
    change: &RowList,
    x: &OrSet,
) -> Result<RowsGained, AllocError>
    requires fits { operations_at (lifts_of (counted.library_of lib.old)) l.now.place ≡ Some (lift_op_of l.now.op) }
    requires sound { IsFoldOp (fold_op_of op.now) }
    requires old { old ≡ fold_rows (fold_op_of op.now) (lift_op_of l.now.op) before.now }
    requires change { IsChange before.now change.now x.now }
    requires width { IsSetOfWidth 16 x.now }
    requires small { length x.now ≤ row_limit }
    ensures rows { IfOk result (λ a. of_rows a.rows.items ≡ change.now) }
    ensures whole { IfOk result (λ a. x.now ≡ join before.now (of_rows a.rows.items)) }
    ensures number { IfOk result (λ a. a.number ≡ fold_rows (fold_op_of op.now) (lift_op_of l.now.op) x.now) }
    ensures library { counted.library_of lib.new ≡ counted.library_of lib.old }
    ensures ticks { counted.ticks_of lib.new ≤ counted.ticks_of lib.old + length change.now }
{
    let rows = share_rows(alloc, change.as_slice())?;
    let set = change.set()?;
    let number = number_after(lib, op, l.place, old, before, &set, x)?;
    Ok(RowsGained { rows, number })
}

/// What the changed rows give to a process that gives a set, as a list.
fn gained_list(
    alloc: Global,
    kind: &Kind,
    lib: &mut StepLib,
    x: &OrSet,
    x_change: &RowList,
    y: &OrSet,
    y_change: &RowList,
) -> Result<Vec<Entry>, SetRefused>
    requires derived { IsFalse (is_source (kind_of kind.now)) }
    requires set { derived_shape (kind_of kind.now) ≡ set }
    requires fits { Fits (library_of (counted.library_of lib.old)) (kind_of kind.now) }
    requires width { IsSetOfWidth 16 x_change.now }
    ensures ok { IfOk result (λ rows. of_rows rows.items ≡ gained (kind_of kind.now) x_change.now x.now y_change.now y.now) }
    ensures too_many { result ≡ Err SetRefused.TooManyRows → row_limit < length (gained (kind_of kind.now) x_change.now x.now y_change.now y.now) }
    ensures library { counted.library_of lib.new ≡ counted.library_of lib.old }
    ensures ticks { counted.ticks_of lib.new ≤ counted.ticks_of lib.old + length x_change.now }
{
    match kind {
        Kind::Union(_, _) => Ok(union_rows(alloc, x_change.as_slice(), y_change.as_slice())?),
        Kind::Map(_, f) => Ok(map_list(alloc, lib, f, x_change)?),
        Kind::Filter(_, p) => Ok(filter_list(alloc, lib, p, x_change)?),
        _ => list_of_gained(alloc, kind, lib, x, x_change, y, y_change),
    }
}

/// The same by way of sets.
fn list_of_gained(
    alloc: Global,
    kind: &Kind,
    lib: &mut StepLib,
    x: &OrSet,
    x_change: &RowList,
    y: &OrSet,
    y_change: &RowList,
) -> Result<Vec<Entry>, SetRefused>
    requires derived { IsFalse (is_source (kind_of kind.now)) }
    requires set { derived_shape (kind_of kind.now) ≡ set }
    requires fits { Fits (library_of (counted.library_of lib.old)) (kind_of kind.now) }
    requires width { IsSetOfWidth 16 x_change.now }
    ensures ok { IfOk result (λ rows. of_rows rows.items ≡ gained (kind_of kind.now) x_change.now x.now y_change.now y.now) }
    ensures too_many { result ≡ Err SetRefused.TooManyRows → row_limit < length (gained (kind_of kind.now) x_change.now x.now y_change.now y.now) }
    ensures library { counted.library_of lib.new ≡ counted.library_of lib.old }
    ensures ticks { counted.ticks_of lib.new ≤ counted.ticks_of lib.old + length x_change.now }
{
    let first = x_change.set()?;
    let second = y_change.set()?;
    let rows = gained_rows(alloc, kind, lib, x, &first, y, &second)?;
    let list = RowList::of_set(alloc, &rows)?;
    Ok(list.into_rows())
}

/// What a function of the library makes of the changed rows.
fn map_list(
    alloc: Global,
    lib: &mut StepLib,
    f: &MapRef,
    change: &RowList,
) -> Result<Vec<Entry>, AllocError>
    requires fits { operations_at (maps_of (counted.library_of lib.old)) f.now.place ≡ Some f.now.ops }
    requires width { IsSetOfWidth 16 change.now }
    ensures ok { IfOk result (λ rows. of_rows rows.items ≡ map_set (mapped f.now.ops) change.now) }
    ensures library { counted.library_of lib.new ≡ counted.library_of lib.old }
    ensures ticks { counted.ticks_of lib.new ≤ counted.ticks_of lib.old + length change.now }
{
    map_rows(alloc, lib, f.place, change.as_slice())
}

/// The changed rows that pass a test of the library.
fn filter_list(
    alloc: Global,
    lib: &mut StepLib,
    p: &PredRef,
    change: &RowList,
) -> Result<Vec<Entry>, AllocError>
    requires fits { operations_at (predicates_of (counted.library_of lib.old)) p.now.place ≡ Some p.now.ops }
    requires width { IsSetOfWidth 16 change.now }
    ensures ok { IfOk result (λ rows. of_rows rows.items ≡ filter_set (passes p.now.ops) change.now) }
    ensures library { counted.library_of lib.new ≡ counted.library_of lib.old }
    ensures ticks { counted.ticks_of lib.new ≤ counted.ticks_of lib.old + length change.now }
{
    filter_rows(alloc, lib, p.place, change.as_slice())
}

/// What a process that gives a set has, and the rows of it that it gained.
fn set_gain(
    alloc: Global,
    kind: &Kind,
    lib: &mut StepLib,
    old: &OrSet,
    x: &OrSet,
    x_change: &OrSet,
    y: &OrSet,
    y_change: &OrSet,
) -> Result<(OrSet, OrSet), SetRefused>
    requires derived { IsFalse (is_source (kind_of kind.now)) }
    requires set { derived_shape (kind_of kind.now) ≡ set }
    requires fits { Fits (library_of (counted.library_of lib.old)) (kind_of kind.now) }
    requires old { IsSetBefore (kind_of kind.now) x_change.now x.now y_change.now y.now old.now }
    requires width { IsSetOfWidth 16 x.now }
    ensures ok { IfOk result (λ p. process (kind_of kind.now) (of_set x.now) (of_set y.now) ≡ of_set p.0) }
    ensures gain { IfOk result (λ p. join old.now p.1 ≡ p.0) }
    ensures rows { IfOk result (λ p. p.1 ≡ gained (kind_of kind.now) x_change.now x.now y_change.now y.now) }
    ensures small { IfOk result (λ p. length p.0 ≤ row_limit) }
    ensures too_many { result ≡ Err SetRefused.TooManyRows → row_limit < size_of (process (kind_of kind.now) (of_set x.now) (of_set y.now)) }
    ensures library { counted.library_of lib.new ≡ counted.library_of lib.old }
    ensures ticks { counted.ticks_of lib.new ≤ counted.ticks_of lib.old + length x_change.now }
{
    let rows = gained_rows(alloc, kind, lib, x, x_change, y, y_change)?;
    let all = union_sets(old, &rows)?;
    Ok((all, rows))
}

/// What the changed rows give to a process that gives a set.
fn gained_rows(
    alloc: Global,
    kind: &Kind,
    lib: &mut StepLib,
    x: &OrSet,
    x_change: &OrSet,
    y: &OrSet,
    y_change: &OrSet,
) -> Result<OrSet, SetRefused>
    requires derived { IsFalse (is_source (kind_of kind.now)) }
    requires set { derived_shape (kind_of kind.now) ≡ set }
    requires fits { Fits (library_of (counted.library_of lib.old)) (kind_of kind.now) }
    requires width { IsSetOfWidth 16 x_change.now }
    ensures ok { IfOk result (λ s. s ≡ gained (kind_of kind.now) x_change.now x.now y_change.now y.now) }
    ensures too_many { result ≡ Err SetRefused.TooManyRows → row_limit < length (gained (kind_of kind.now) x_change.now x.now y_change.now y.now) }
    ensures library { counted.library_of lib.new ≡ counted.library_of lib.old }
    ensures ticks { counted.ticks_of lib.new ≤ counted.ticks_of lib.old + length x_change.now }
{
    match kind {
        Kind::Union(_, _) => union_sets(x_change, y_change),
        Kind::Product(_, _) => pair_gain(alloc, Pairing::Product, x, x_change, y, y_change),
        Kind::Intersection(_, _) => {
            pair_gain(alloc, Pairing::Intersection, x, x_change, y, y_change)
        }
        Kind::Map(_, f) => match map_gain(alloc, lib, f, x_change) {
            Ok(set) => Ok(set),
            Err(_) => Err(SetRefused::Memory),
        },
        Kind::Filter(_, p) => match filter_gain(lib, p, x_change) {
            Ok(set) => Ok(set),
            Err(_) => Err(SetRefused::Memory),
        },
        _ => unreachable!(),
    }
}

/// What a function of the library makes of the changed rows.
fn map_gain(
    alloc: Global,
    lib: &mut StepLib,
    f: &MapRef,
    change: &OrSet,
) -> Result<OrSet, AllocError>
    requires fits { operations_at (maps_of (counted.library_of lib.old)) f.now.place ≡ Some f.now.ops }
    requires width { IsSetOfWidth 16 change.now }
    ensures ok { IfOk result (λ s. s ≡ map_set (mapped f.now.ops) change.now) }
    ensures library { counted.library_of lib.new ≡ counted.library_of lib.old }
    ensures ticks { counted.ticks_of lib.new ≤ counted.ticks_of lib.old + length change.now }
{
    map_counted(alloc, lib, f.place, change)
}

/// The changed rows that pass a test of the library.
fn filter_gain(lib: &mut StepLib, p: &PredRef, change: &OrSet) -> Result<OrSet, AllocError>
    requires fits { operations_at (predicates_of (counted.library_of lib.old)) p.now.place ≡ Some p.now.ops }
    requires width { IsSetOfWidth 16 change.now }
    ensures ok { IfOk result (λ s. s ≡ filter_set (passes p.now.ops) change.now) }
    ensures library { counted.library_of lib.new ≡ counted.library_of lib.old }
    ensures ticks { counted.ticks_of lib.new ≤ counted.ticks_of lib.old + length change.now }
{
    filter_counted(lib, p.place, change)
}

/// The fold of a set that changed, from the set and the number before. It covers the changed rows, in a table of its own and not in that of its input.
fn fold_gain(
    lib: &mut StepLib,
    op: &FoldOp,
    l: &LiftRef,
    old: i128,
    before: &OrSet,
    change: &OrSet,
    x: &OrSet,
) -> Result<Gain, AllocError>
    requires fits { operations_at (lifts_of (counted.library_of lib.old)) l.now.place ≡ Some (lift_op_of l.now.op) }
    requires sound { IsFoldOp (fold_op_of op.now) }
    requires old { old ≡ fold_rows (fold_op_of op.now) (lift_op_of l.now.op) before.now }
    requires change { IsChange before.now change.now x.now }
    requires width { IsSetOfWidth 16 x.now }
    requires small { length x.now ≤ row_limit }
    ensures content { IfOk result (λ a. content_of a.state ≡ of_set x.now) }
    ensures shape { IfOk result (λ a. shape_of a.state ≡ fold) }
    ensures number { IfOk result (λ a. number_of a.state ≡ fold_rows (fold_op_of op.now) (lift_op_of l.now.op) x.now) }
    ensures gain { IfOk result (λ a. join before.now a.rows ≡ x.now) }
    ensures rows { IfOk result (λ a. a.rows ≡ change.now) }
    ensures library { counted.library_of lib.new ≡ counted.library_of lib.old }
    ensures ticks { counted.ticks_of lib.new ≤ counted.ticks_of lib.old + length change.now }
{
    let number = number_after(lib, op, l.place, old, before, change, x)?;
    let mut covered = before.try_clone()?;
    covered.join_in(change)?;
    Ok(Gain {
        state: State::Fold(covered, number),
        rows: change.try_clone()?,
    })
}

/// The number of a fold by the lift at a place.
fn number_after(
    lib: &mut StepLib,
    op: &FoldOp,
    lift: u32,
    old: i128,
    before: &OrSet,
    change: &OrSet,
    x: &OrSet,
) -> Result<i128, AllocError>
    requires place { lift < length (lifts_of (counted.library_of lib.old)) }
    requires sound { IsFoldOp (fold_op_of op.now) }
    requires old { old ≡ fold_rows (fold_op_of op.now) (lift_op_at (counted.library_of lib.old) lift) before.now }
    requires change { IsChange before.now change.now x.now }
    requires limits { IsWithinLimits x.now }
    ensures number { IfOk result (λ n. n ≡ fold_rows (fold_op_of op.now) (lift_op_at (counted.library_of lib.old) lift) x.now) }
    ensures library { counted.library_of lib.new ≡ counted.library_of lib.old }
    ensures ticks { counted.ticks_of lib.new ≤ counted.ticks_of lib.old + length change.now }
{
    match op {
        FoldOp::Sum => fold_increment(&Sum, lib, lift, old, before, change, x),
        FoldOp::Xor => fold_increment(&Xor, lib, lift, old, before, change, x),
        FoldOp::Modulo(n) => fold_increment(&Modulo::new(*n), lib, lift, old, before, change, x),
    }
}
