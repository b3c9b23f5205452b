//! A replica that has a set of each sort, to which the same is done.

use crate::wrong::Wrong;
use lasp_dots::DotSet;
use lasp_logset::{OrSet, TableRow, add_delta};
use lasp_value::{Value, Values};
use std::alloc::{AllocError, Global};

/// A set without tombstones and one with them.
#[derive(Drop)]
pub struct Beside {
    pub dots: DotSet,
    pub rows: OrSet,
}

impl Beside {
    /// A replica of so many.
    pub fn new(alloc: Global, nodes: u8) -> Result<Beside, Wrong> {
        if nodes < 1 || nodes > 8 {
            return Err(Wrong::NoNode);
        }
        Ok(Beside {
            dots: DotSet::new(alloc, nodes)?,
            rows: OrSet::new(alloc),
        })
    }

    /// What the replica sends.
    pub fn try_clone(&self) -> Result<Beside, Wrong> {
        Ok(Beside {
            dots: self.dots.try_clone()?,
            rows: self.rows.try_clone()?,
        })
    }

    pub fn add(&mut self, alloc: Global, value: &Value, replica: u8) -> Result<(), Wrong> {
        if replica >= self.dots.nodes() {
            return Err(Wrong::NoNode);
        }
        let k = self.dots.add(value, replica)?;
        self.rows.join_in(&add_delta(alloc, value, replica, k)?)?;
        Ok(())
    }

    pub fn remove(&mut self, value: &Value, replica: u8) -> Result<(), Wrong> {
        if replica >= self.dots.nodes() {
            return Err(Wrong::NoNode);
        }
        self.dots.remove(value, replica)?;
        let delta = self.rows.remove_delta(value)?;
        self.rows.join_in(&delta)?;
        Ok(())
    }

    /// Takes what a replica sent.
    pub fn take(&mut self, sent: &Beside) -> Result<(), Wrong> {
        if self.dots.nodes() != sent.dots.nodes() {
            return Err(Wrong::NoNode);
        }
        self.dots.join_in(&sent.dots)?;
        self.rows.join_in(&sent.rows)?;
        Ok(())
    }

    /// Whether both sets show the same values, and the pairs of the one are the live rows of the other.
    pub fn is_alike(&self) -> Result<bool, AllocError> {
        let alike = are_same(&self.dots.visible()?, &self.rows.visible()?);
        Ok(alike && has_live_rows(&self.dots, &self.rows)?)
    }
}

/// Whether the pairs are the live rows, in the same order.
fn has_live_rows(dots: &DotSet, set: &OrSet) -> Result<bool, AllocError> {
    let mut place = 0u64;
    let mut rows = set.in_order()?;
    for _ in 0..set.rows() {
        if let Some(row) = rows.next() {
            if row.is_dead() {
                continue;
            }
            if !has_pair_at(dots, place, &row) {
                return Ok(false);
            }
            place = place.saturating_add(1);
        }
    }
    Ok(place == dots.dots())
}

fn has_pair_at(dots: &DotSet, place: u64, row: &TableRow<'_>) -> bool {
    if place >= dots.dots() {
        return false;
    }
    let (value, token) = dots.dot_at(place);
    *value == *row.value() && *token == *row.token() && dots.has(value)
}

fn are_same(values: &Values, others: &Values) -> bool {
    if values.len() != others.len() {
        return false;
    }
    for i in 0..values.len() {
        if *values.at(i) != *others.at(i) {
            return false;
        }
    }
    true
}
