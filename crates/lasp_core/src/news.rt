//! What came to a variable at an entry, for the reads that wait for values of it.

ghost use Rattle.std.specs.Prelude.{◌≡◌, IfSome, IsTrue};
ghost use Rattle.std.specs.List.{list_any};
ghost use Rattle.model_sets.specs.Rows.{is_of};
ghost use Rattle.model_states.specs.Threshold.{set};
ghost use Rattle.lasp_state.specs.State.{shape_of};
ghost use Rattle.lasp_value.specs.Value.{val_of};
ghost use Rattle.lasp_core.specs.Prelude.{IsReplica};
ghost use Rattle.lasp_core.specs.Lacking.{HaveCome, IsSparedAt, Spares};

use crate::read::ReadNo;
use lasp_logset::{OrSet, TableRow};
use lasp_replica::{History, Replica};
use lasp_state::{State, Threshold};
use lasp_value::{Value, Values};

/// How many reads have to wait for it to pay that what came is kept apart.
const MANY_READS: usize = 16;

/// How many rows may come for each read to be asked whether it waits for one of them.
const FEW_ROWS: u64 = 8;

/// The rows that came to a variable that is a set, kept apart.
#[derive(Drop)]
pub(crate) struct Came {
    pub(crate) var: u8,
    pub(crate) rows: OrSet,
}

impl Came {
    /// The rows that came at entries from number n on to the first variable of a read that grew there. None where it is no set, or it doesn't pay, or there is no memory for them.
    pub(crate) fn first(replica: &Replica, n: u64, reads: &[ReadNo]) -> Option<Came>
        requires { IsReplica replica.now }
        ensures { IfSome result (HaveCome replica.now n) }
    {
        if reads.len() < MANY_READS {
            return None;
        }
        for read in reads {
            if has_grown(replica, n, read.var) {
                return Came::to(replica, n, read.var);
            }
        }
        None
    }

    /// The same to one variable.
    fn to(replica: &Replica, n: u64, var: u8) -> Option<Came>
        requires { IsReplica replica.now }
        ensures { IfSome result (HaveCome replica.now n) }
    {
        if u64::from(var) >= replica.states.len() || var as usize >= replica.histories.len() {
            return None;
        }
        let history = &replica.histories[var as usize];
        if !is_set(replica.states.at(u64::from(var))) || !are_few_since(history, n) {
            return None;
        }
        match history.since(replica.allocator(), n) {
            Ok(rows) => Some(Came { var, rows }),
            Err(_) => None,
        }
    }

    /// The rows as a list. None where there is no memory for it.
    pub(crate) fn listed(&self) -> Option<News<'_>>
        ensures var { IfSome result (λ news. news.var ≡ self.now.var) }
        ensures rows { IfSome result (λ news. news.rows.items ≡ self.now.rows) }
    {
        let rows = self.rows.sorted().ok()?;
        Some(News {
            var: self.var,
            rows,
        })
    }
}

/// The same rows as a list.
#[derive(Drop)]
pub(crate) struct News<'a> {
    pub(crate) var: u8,
    pub(crate) rows: Vec<TableRow<'a>>,
}

impl<'a> News<'a> {
    /// Whether a read is known to lack a value of which no row came. It costs a comparison with each row.
    pub(crate) fn spares(&self, read: &ReadNo) -> bool
        ensures { IsTrue result → Spares self.now read.now }
    {
        if self.var != read.var || !read.is_lacking {
            return false;
        }
        match &*read.threshold {
            Threshold::Added(values) => spares_value(self.rows.as_slice(), values, read.place),
            Threshold::Removed(values) => spares_value(self.rows.as_slice(), values, read.place),
            _ => false,
        }
    }
}

/// Whether there is a value at a place and none of the rows is of it.
fn spares_value(rows: &[TableRow<'_>], values: &Values, place: u64) -> bool
    ensures { IsTrue result → IsSparedAt values.now rows.now place }
{
    place < values.len() && !has_any(rows, values.at(place))
}

/// Whether one of the rows is of a value.
fn has_any(rows: &[TableRow<'_>], value: &Value) -> bool
    ensures { result ≡ list_any (is_of (val_of value.now)) rows.now }
{
    for row in rows {
        if row.is_of(value) {
            return true;
        }
    }
    false
}

fn is_set(state: &State) -> bool
    ensures { IsTrue result → shape_of state.now ≡ set }
{
    matches!(state, State::Set(_))
}

/// Whether few rows came at entries from number n on.
fn are_few_since(history: &History, n: u64) -> bool {
    history
        .rows_before(u64::MAX)
        .saturating_sub(history.rows_before(n))
        <= FEW_ROWS
}

/// Whether a variable grew at an entry from number n on.
fn has_grown(replica: &Replica, n: u64, var: u8) -> bool {
    match replica.histories.get(var as usize) {
        Some(history) => !history.is_still_since(n),
        None => false,
    }
}
