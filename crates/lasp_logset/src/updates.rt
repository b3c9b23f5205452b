//! What an update joins in.

ghost use Rattle.std.specs.Prelude.{◌≡◌, ◌==◌, if◌then◌else◌, IfOk};
ghost use Rattle.std.specs.Ordering.{eq_by_cmp};
ghost use Rattle.model_values.specs.Value.{Val, val_cmp};
ghost use Rattle.model_values.specs.Token.{Tok};
ghost use Rattle.model_sets.specs.Rows.{mark, of_rows, join, add_delta, remove_delta};
ghost use Rattle.lasp_value.specs.Value.{val_of};

use super::buried::{bury_chain, bury_rest};
use super::entry::Entry;
use super::set::LogSet;
use lasp_value::{Token, Value};
use std::alloc::{AllocError, Global};

impl LogSet {
    /// What the k-th update of a replica joins in where it adds a value: one live row with a token of its own.
    pub fn add_delta(
        alloc: Global,
        value: &Value,
        replica: u8,
        k: u64,
    ) -> Result<LogSet, AllocError>
        ensures { IfOk result (λ d. d ≡ add_delta (val_of value.now) replica k) }
    {
        let entry = Entry::new(
            alloc,
            value.try_clone(alloc)?,
            Token::Base(replica, k),
            false,
        )?;
        let mut delta = LogSet::new(alloc);
        delta.add(entry)?;
        Ok(delta)
    }

    /// What an update joins in where it removes a value: the live rows of the value that stand here, each dead. With the dead ones it would be the same to this set and to each that has its rows. It costs a look-up, those rows, and a pass over the rows that came since `index_values`.
    pub fn remove_delta(&self, value: &Value) -> Result<LogSet, AllocError>
        ensures rows { IfOk result (λ d. (u : Val) (t : Tok) → mark d u t ≡ (if eq_by_cmp val_cmp (val_of value.now) u then (if mark self.now u t == 1 then 2 else 0) else 0)) }
        ensures joined { IfOk result (λ d. join (of_rows self.now) d ≡ join (of_rows self.now) (remove_delta (val_of value.now) (of_rows self.now))) }
    {
        let mut delta = self.empty();
        let (rows, chains) = self.parts();
        bury_chain(rows, chains, value, &mut delta)?;
        bury_rest(rows, chains.older.len(), value, &mut delta)?;
        Ok(delta)
    }
}
