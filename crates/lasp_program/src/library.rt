//! How the functions of the tables come into a library.

ghost use Rattle.std.specs.Prelude.{◌≡◌, ◌≢◌, ◌↔◌, ◌<◌, ◌++◌, ◌∷◌, [], Err, IsOk, OnOk, IsTrue, length, false, map};
ghost use Rattle.lasp_program.specs.Prelude.{IsSized, passes, lifted, is_name, val_of, Answers, maps_of, predicates_of, lifts_of, lift_op_of, map_op_of, is_named, condition_view};

use crate::functions::Condition;
use crate::operations::{conditions_of, steps_of};
use lasp_fns::{
    Library, LibraryRefused, LiftFn, LiftOp, MapFn, MapOp, PredFn, StoredLift, StoredMap,
    StoredPred,
};
use std::alloc::{AllocError, Global};

/// Adds a map function under a name that is free.
pub fn add_map(
    alloc: Global,
    library: &mut Library,
    name: &str,
    steps: &[MapOp],
    f: MapFn,
) -> Result<(), AllocError>
    requires callable { (x : _) → IsSized (val_of x.now) → MapFn.pre f x }
    requires answers { (x : _) (r : _) → IsSized (val_of x.now) → MapFn.post f x r → Answers (map map_op_of steps.now) (val_of x.now) r }
    requires room { length (maps_of library.old) < 4294967295 }
    requires shape { IsTrue (is_name name.now) }
    requires free { is_named name.now (maps_of library.old) ≡ false }
    ensures ok { OnOk result (maps_of library.new ≡ maps_of library.old ++ (name.now, map map_op_of steps.now) ∷ []) }
    ensures predicates { predicates_of library.new ≡ predicates_of library.old }
    ensures lifts { lifts_of library.new ≡ lifts_of library.old }
{
    let ops = steps_of(alloc, steps)?;
    added(library.add_map(name, StoredMap::new(ops, f)))
}

/// Adds a predicate under a name that is free.
pub fn add_predicate(
    alloc: Global,
    library: &mut Library,
    name: &str,
    conditions: &[Condition],
    f: PredFn,
) -> Result<(), AllocError>
    requires callable { (x : _) → IsSized (val_of x.now) → PredFn.pre f x }
    requires answers { (x : _) (r : _) → IsSized (val_of x.now) → PredFn.post f x r → r ≡ passes (map condition_view conditions.now) (val_of x.now) }
    requires room { length (predicates_of library.old) < 4294967295 }
    requires shape { IsTrue (is_name name.now) }
    requires free { is_named name.now (predicates_of library.old) ≡ false }
    ensures ok { OnOk result (predicates_of library.new ≡ predicates_of library.old ++ (name.now, map condition_view conditions.now) ∷ []) }
    ensures maps { maps_of library.new ≡ maps_of library.old }
    ensures lifts { lifts_of library.new ≡ lifts_of library.old }
{
    let ops = conditions_of(alloc, conditions)?;
    added(library.add_pred(name, StoredPred::new(ops, f)))
}

/// Adds a lift under a name that is free.
pub fn add_lift(library: &mut Library, name: &str, op: LiftOp, f: LiftFn) -> Result<(), AllocError>
    requires callable { (x : _) → IsSized (val_of x.now) → LiftFn.pre f x }
    requires answers { (x : _) (r : _) → IsSized (val_of x.now) → LiftFn.post f x r → r ≡ lifted (lift_op_of op) (val_of x.now) }
    requires room { length (lifts_of library.old) < 4294967295 }
    requires shape { IsTrue (is_name name.now) }
    requires free { is_named name.now (lifts_of library.old) ≡ false }
    ensures ok { OnOk result (lifts_of library.new ≡ lifts_of library.old ++ (name.now, lift_op_of op) ∷ []) }
    ensures maps { maps_of library.new ≡ maps_of library.old }
    ensures predicates { predicates_of library.new ≡ predicates_of library.old }
{
    added(library.add_lift(name, StoredLift::new(op, f)))
}

/// What is left of a refusal where the name is a name, and free.
fn added(answer: Result<(), LibraryRefused>) -> Result<(), AllocError>
    requires shape { answer ≢ Err LibraryRefused.NameShape }
    requires taken { answer ≢ Err LibraryRefused.NameTaken }
    ensures { (IsOk result) ↔ (IsOk answer) }
{
    match answer {
        Ok(()) => Ok(()),
        Err(LibraryRefused::Memory) => Err(AllocError),
        Err(LibraryRefused::NameShape) => unreachable!(),
        Err(LibraryRefused::NameTaken) => unreachable!(),
    }
}
