//! A library that counts its calls.

ghost use Rattle.std.specs.Prelude.{◌≡◌, ◌<◌, length, option_copied};
ghost use Rattle.lasp_fns.specs.Prelude.{option_map, IsSized, passes, lifted, val_of, Answers, lift_op_of, item_at, maps_of, predicates_of, lifts_of, map_ops_at, pred_ops_at, lift_op_at, library_of, ticks_of, one_more};

use crate::library::Library;
use crate::lift::LiftOp;
use crate::map::MapOps;
use crate::predicate::PredOps;
use lasp_value::Value;
use std::alloc::AllocError;

/// A library each of whose calls of a stored function counts one tick, so that a caller's cost in calls can be told. The count stops at the greatest number of 64 bits.
#[derive(Drop)]
pub struct StepLib<'a> {
    library: &'a Library,
    ticks: u64,
}

impl<'a> StepLib<'a> {
    /// Counts the calls of a library from 0 on.
    pub fn new(library: &'a Library) -> StepLib<'a>
        ensures library { library_of result ≡ library.now }
        ensures ticks { ticks_of result ≡ 0 }
    {
        StepLib { library, ticks: 0 }
    }

    /// The number of calls so far.
    pub fn ticks(&self) -> u64
        ensures { result ≡ ticks_of self.now }
    {
        self.ticks
    }

    fn tick(&mut self)
        ensures library { library_of self.new ≡ library_of self.old }
        ensures ticks { ticks_of self.new ≡ one_more (ticks_of self.old) }
    {
        self.ticks = self.ticks.saturating_add(1);
    }

    /// Calls the map function at a place.
    pub fn call_map(&mut self, i: u32, v: &Value) -> Result<Value, AllocError>
        requires place { i < length (maps_of (library_of self.old)) }
        requires sized { IsSized (val_of v.now) }
        ensures answer { Answers (map_ops_at (library_of self.old) i) (val_of v.now) result }
        ensures library { library_of self.new ≡ library_of self.old }
        ensures ticks { ticks_of self.new ≡ one_more (ticks_of self.old) }
    {
        self.tick();
        self.library.map_at(i).call(v)
    }

    /// Calls the predicate at a place.
    pub fn call_pred(&mut self, i: u32, v: &Value) -> bool
        requires place { i < length (predicates_of (library_of self.old)) }
        requires sized { IsSized (val_of v.now) }
        ensures answer { result ≡ passes (pred_ops_at (library_of self.old) i) (val_of v.now) }
        ensures library { library_of self.new ≡ library_of self.old }
        ensures ticks { ticks_of self.new ≡ one_more (ticks_of self.old) }
    {
        self.tick();
        self.library.pred_at(i).call(v)
    }

    /// Calls the lift at a place.
    pub fn call_lift(&mut self, i: u32, v: &Value) -> i64
        requires place { i < length (lifts_of (library_of self.old)) }
        requires sized { IsSized (val_of v.now) }
        ensures answer { result ≡ lifted (lift_op_at (library_of self.old) i) (val_of v.now) }
        ensures library { library_of self.new ≡ library_of self.old }
        ensures ticks { ticks_of self.new ≡ one_more (ticks_of self.old) }
    {
        self.tick();
        self.library.lift_at(i).call(v)
    }

    /// The operations of the map function at a place, or None where there is no such place. It counts no call.
    pub fn map_ops(&self, i: u32) -> Option<&MapOps>
        ensures { option_copied result ≡ item_at (maps_of (library_of self.now)) i }
    {
        self.library.map_ops(i)
    }

    /// The conditions of the predicate at a place, or None where there is no such place. It counts no call.
    pub fn pred_ops(&self, i: u32) -> Option<&PredOps>
        ensures { option_copied result ≡ item_at (predicates_of (library_of self.now)) i }
    {
        self.library.pred_ops(i)
    }

    /// The operation of the lift at a place, or None where there is no such place. It counts no call.
    pub fn lift_op(&self, i: u32) -> Option<&LiftOp>
        ensures { option_map (λ op. lift_op_of op.now) result ≡ item_at (lifts_of (library_of self.now)) i }
    {
        self.library.lift_op(i)
    }
}
