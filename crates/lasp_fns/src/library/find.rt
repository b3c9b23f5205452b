//! How functions of a library are found.

ghost use Rattle.std.specs.Prelude.{◌≡◌, ◌<◌, Some, length, option_copied};
ghost use Rattle.lasp_fns.specs.Prelude.{option_map, lift_op_of, place_named, item_at, ops_of, conditions_of, lift_of, maps_of, predicates_of, lifts_of};

use super::Library;
use crate::lift::LiftOp;
use crate::map::MapOps;
use crate::predicate::PredOps;
use crate::stored::{StoredLift, StoredMap, StoredPred};

impl Library {
    /// The place of the map function with this name, counted from 0, by one look-up.
    pub fn find_map(&self, name: &str) -> Option<u32>
        ensures { result ≡ place_named name.now (maps_of self.now) }
    {
        self.maps.find(name)
    }

    /// The place of the predicate with this name, counted from 0, by one look-up.
    pub fn find_pred(&self, name: &str) -> Option<u32>
        ensures { result ≡ place_named name.now (predicates_of self.now) }
    {
        self.predicates.find(name)
    }

    /// The place of the lift with this name, counted from 0, by one look-up.
    pub fn find_lift(&self, name: &str) -> Option<u32>
        ensures { result ≡ place_named name.now (lifts_of self.now) }
    {
        self.lifts.find(name)
    }

    /// The map function at a place.
    pub fn map_at(&self, i: u32) -> &StoredMap
        requires { i < length (maps_of self.now) }
        ensures { item_at (maps_of self.now) i ≡ Some (ops_of result.now) }
    {
        self.maps.at(i).unwrap()
    }

    /// The predicate at a place.
    pub fn pred_at(&self, i: u32) -> &StoredPred
        requires { i < length (predicates_of self.now) }
        ensures { item_at (predicates_of self.now) i ≡ Some (conditions_of result.now) }
    {
        self.predicates.at(i).unwrap()
    }

    /// The lift at a place.
    pub fn lift_at(&self, i: u32) -> &StoredLift
        requires { i < length (lifts_of self.now) }
        ensures { item_at (lifts_of self.now) i ≡ Some (lift_of result.now) }
    {
        self.lifts.at(i).unwrap()
    }

    /// The operations of the map function at a place, or None where there is no such place.
    pub fn map_ops(&self, i: u32) -> Option<&MapOps>
        ensures { option_copied result ≡ item_at (maps_of self.now) i }
    {
        match self.maps.at(i) {
            Some(f) => Some(f.ops()),
            None => None,
        }
    }

    /// The conditions of the predicate at a place, or None where there is no such place.
    pub fn pred_ops(&self, i: u32) -> Option<&PredOps>
        ensures { option_copied result ≡ item_at (predicates_of self.now) i }
    {
        match self.predicates.at(i) {
            Some(f) => Some(f.ops()),
            None => None,
        }
    }

    /// The operation of the lift at a place, or None where there is no such place.
    pub fn lift_op(&self, i: u32) -> Option<&LiftOp>
        ensures { option_map (λ op. lift_op_of op.now) result ≡ item_at (lifts_of self.now) i }
    {
        match self.lifts.at(i) {
            Some(f) => Some(f.op()),
            None => None,
        }
    }
}
