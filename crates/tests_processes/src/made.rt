//! What all tests share: sets of rows, and stored functions that count their calls.

ghost use Rattle.std.specs.Prelude.{◌≡◌, ◌<◌, [], IfOk, IsTrue, length};
ghost use Rattle.model_values.specs.Size.{IsSized};
ghost use Rattle.model_functions.specs.Predicate.{passes};
ghost use Rattle.model_functions.specs.Lift as lift;
ghost use Rattle.model_functions.specs.Lift.{lifted};
ghost use Rattle.lasp_value.specs.Value.{val_of};
ghost use Rattle.lasp_fns.specs.Answers.{Answers};
ghost use Rattle.lasp_fns.specs.Library.{maps_of, predicates_of, lifts_of};
ghost use Rattle.lasp_setops.specs.Fold.{IsWithinLimits};
ghost use Rattle.lasp_setops.specs.Width.{IsSetOfWidth};

use lasp_fns::{
    Library, LiftOp, MapOp, MapOps, PredOp, PredOps, StoredLift, StoredMap, StoredPred, apply_lift,
    apply_map, apply_pred,
};
use lasp_logset::{Entry, OrSet};
use lasp_value::{Token, Value, print_into};
use std::alloc::{AllocError, Global};
use std::sync::Arc;
use std::sync::atomic::{AtomicU64, Ordering};

/// Rows of numbers, each with the number of its token and whether it is dead.
pub type Rows<'a> = &'a [(i64, u64, bool)];

/// The most rows that a set variable may have.
const MOST_ROWS: u64 = 65_536;

pub fn rows(alloc: Global, table: Rows) -> Result<OrSet, AllocError>
    ensures width { IfOk result (λ s. IsSetOfWidth 16 s) }
    ensures limits { IfOk result (λ s. IsWithinLimits s) }
{
    let mut set = OrSet::new(alloc);
    for (n, k, dead) in table {
        let row = Entry::new(alloc, Value::Int(*n), Token::Base(0, *k), *dead)?;
        set.add(row)?;
    }
    if set.rows() > MOST_ROWS {
        return Err(AllocError);
    }
    Ok(set)
}

fn spell_token(out: &mut String, token: &Token) -> Result<(), AllocError> {
    match token {
        Token::Base(replica, k) => write!(out, "{replica}.{k}"),
        Token::Both(first, second) => {
            spell_token(out, first)?;
            out.push('+')?;
            spell_token(out, second)
        }
    }
}

/// Whether the rows of a set are spelled so: each as its value, its token after `@`, and `x` where it is dead.
pub fn spells(alloc: Global, set: &OrSet, expected: &str) -> Result<bool, AllocError> {
    let mut out = String::new(alloc);
    let mut rows = set.in_order()?;
    while let Some(row) = rows.next() {
        print_into(&mut out, row.value())?;
        out.push('@')?;
        spell_token(&mut out, row.token())?;
        out.push_str(if row.is_dead() { "x " } else { " " })?;
    }
    Ok(out.as_str() == expected)
}

pub fn no_calls(alloc: Global) -> Result<Arc<AtomicU64>, AllocError> {
    Ok(Arc::new(alloc, AtomicU64::new(0))?)
}

/// A map function of one operation.
fn map_of(alloc: Global, op: MapOp, calls: &Arc<AtomicU64>) -> Result<StoredMap, AllocError> {
    let mut ops = MapOps::new(alloc);
    ops.push(op)?;
    let mine = ops.try_clone()?;
    let counter = Arc::try_clone(calls)?;
    let f = move |v: &Value| -> Result<Value, AllocError>
        requires { IsSized (val_of v.now) }
        ensures { Answers mine (val_of v.entry.now) result }
    {
        counter.fetch_add(1, Ordering::SeqCst);
        apply_map(alloc, &mine, v)
    };
    Ok(StoredMap::new(ops, Box::new(alloc, f)?))
}

/// The test that even numbers pass.
fn even(alloc: Global, calls: &Arc<AtomicU64>) -> Result<StoredPred, AllocError> {
    let mut conditions = PredOps::new(alloc);
    conditions.push(PredOp::Even)?;
    let mine = conditions.try_clone()?;
    let counter = Arc::try_clone(calls)?;
    let p = move |v: &Value| -> bool
        requires { IsSized (val_of v.now) }
        ensures { result ≡ passes mine (val_of v.entry.now) }
    {
        counter.fetch_add(1, Ordering::SeqCst);
        apply_pred(&mine, v)
    };
    Ok(StoredPred::new(conditions, Box::new(alloc, p)?))
}

/// The lift that leaves numbers as they are.
fn itself(alloc: Global, calls: &Arc<AtomicU64>) -> Result<StoredLift, AllocError> {
    let counter = Arc::try_clone(calls)?;
    let l = move |v: &Value| -> i64
        requires { IsSized (val_of v.now) }
        ensures { result ≡ lifted lift.Itself (val_of v.entry.now) }
    {
        counter.fetch_add(1, Ordering::SeqCst);
        apply_lift(&LiftOp::Itself, v)
    };
    Ok(StoredLift::new(LiftOp::Itself, Box::new(alloc, l)?))
}

/// Puts two maps into a library of no functions, and tells whether both are there.
fn add_maps(library: &mut Library, plain: StoredMap, counted: StoredMap) -> bool
    requires none { maps_of library.old ≡ [] }
    ensures both { IsTrue result → 1 < length (maps_of library.new) }
    ensures predicates { predicates_of library.new ≡ predicates_of library.old }
    ensures lifts { lifts_of library.new ≡ lifts_of library.old }
{
    library.add_map("plain", plain).is_ok() && library.add_map("counted", counted).is_ok()
}

/// Puts a test into a library of no tests, and tells whether it is there.
fn add_test(library: &mut Library, even: StoredPred) -> bool
    requires none { predicates_of library.old ≡ [] }
    ensures there { IsTrue result → 0 < length (predicates_of library.new) }
    ensures maps { maps_of library.new ≡ maps_of library.old }
    ensures lifts { lifts_of library.new ≡ lifts_of library.old }
{
    library.add_pred("even", even).is_ok()
}

/// Puts a lift into a library of no lifts, and tells whether it is there.
fn add_lift(library: &mut Library, itself: StoredLift) -> bool
    requires none { lifts_of library.old ≡ [] }
    ensures there { IsTrue result → 0 < length (lifts_of library.new) }
    ensures maps { maps_of library.new ≡ maps_of library.old }
    ensures predicates { predicates_of library.new ≡ predicates_of library.old }
{
    library.add_lift("itself", itself).is_ok()
}

/// The library of all tests: two maps of the same operation, `plain` and `counted`, the test of even numbers, `even`, and the lift that leaves numbers as they are, `itself`. All calls but those of `plain` are counted together.
pub fn library_of(alloc: Global, op: MapOp, calls: &Arc<AtomicU64>) -> Result<Library, AllocError>
    ensures { IfOk result (λ l. (1 < length (maps_of l)) × (0 < length (predicates_of l)) × (0 < length (lifts_of l))) }
{
    let plain = map_of(alloc, op, &no_calls(alloc)?)?;
    let counted = map_of(alloc, op, calls)?;
    let test = even(alloc, calls)?;
    let lift = itself(alloc, calls)?;
    let mut library = Library::new(alloc);
    if add_maps(&mut library, plain, counted)
        && add_test(&mut library, test)
        && add_lift(&mut library, lift)
    {
        return Ok(library);
    }
    Err(AllocError)
}
