//! The operations on source variables.

use super::state::State;
use lasp_value::Value;
use std::sync::Arc;

/// What an update does to its variable.
#[derive(Drop)]
pub enum Op {
    /// Adds the value to an observed-remove set, with a fresh token.
    Add(Value),
    /// Removes what the replica observes of the value in an observed-remove set.
    Remove(Value),
    /// Puts the value into a grow-only set.
    Insert(Value),
    /// Counts so many more, from 1 to 4,294,967,295.
    Inc(u32),
    /// Raises a register to at least this number.
    Max(i64),
    /// Joins in what a state of the variable held before; of no fold.
    Join(Arc<State>),
}
