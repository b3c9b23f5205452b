//! What an update joins in, and what became more from one set to another.

ghost use Rattle.std.specs.Prelude.{◌≡◌, IfOk};
ghost use Rattle.model_sets.specs.Rows.{of_rows, join, add_delta, remove_delta};
ghost use Rattle.model_sets.specs.Equations.{changed};
ghost use Rattle.lasp_value.specs.Value.{val_of};

use super::asked::Asked;
use super::behind::rest_behind;
use super::changes::Changes;
use super::entry::Entry;
use super::grown::Grown;
use super::near::Hint;
use super::orset::{Kept, OrSet};
use super::pass::Pass;
use super::past::Past;
use lasp_log::Items;
use lasp_value::{Token, Value};
use std::alloc::{AllocError, Global};

/// What the k-th update of a replica joins in where it adds a value: one live row with a token of its own.
pub fn add_delta(alloc: Global, value: &Value, replica: u8, k: u64) -> Result<OrSet, AllocError>
    ensures { IfOk result (λ d. d ≡ add_delta (val_of value.now) replica k) }
{
    let entry = Entry::new(
        alloc,
        value.try_clone(alloc)?,
        Token::Base(replica, k),
        false,
    )?;
    Ok(OrSet::of_past(Past::one(alloc, entry)?))
}

impl OrSet {
    /// What an update joins in where it removes a value: the rows of the value that stand here, each dead. It costs a pass over the rows.
    pub fn remove_delta(&self, value: &Value) -> Result<OrSet, AllocError>
        ensures { IfOk result (λ d. d ≡ remove_delta (val_of value.now) self.now) }
    {
        let mut log = Changes::new(self.allocator());
        self.recall_ints();
        self.ascends();
        let mut rows = self.entries()?;
        while let Some(row) = rows.next() {
            if row.is_of(value) {
                log.push(row.buried()?)?;
            }
        }
        log.seal();
        Ok(OrSet::of_past(Past::of_apart(log)))
    }
}

impl OrSet {
    /// The live rows of a value, each dead: joined in here it removes the value as `remove_delta` does. It costs these rows and a pass over what stands behind the table where the table's values are indexed, else a pass over the rows.
    pub fn bury_delta(&self, value: &Value) -> Result<OrSet, AllocError>
        ensures { IfOk result (λ d. join self.now d ≡ join self.now (remove_delta (val_of value.now) self.now)) }
    {
        match &self.kept {
            Kept::Whole(set) => {
                let delta = set.remove_delta(value)?;
                Ok(OrSet::of_past(delta.past()?))
            }
            Kept::Past(grown) => {
                let delta = grown.bury_delta(value)?;
                Ok(OrSet::of_past(delta.past()?))
            }
        }
    }
}

/// The rows of the second set that the first one lacks, or that are dead in the second alone. Where the first one is at most the second, these joined into the first give the second.
/// Where the second set's log begins as that of the first, as that of a later state of one set does, it is what stands behind: that costs a comparison for each change of the first, and what comes of it. Else each change of the second set costs a look-up; the keys are shared.
pub fn changed(alloc: Global, before: &OrSet, after: &OrSet) -> Result<OrSet, AllocError>
    ensures { IfOk result (λ s. s ≡ changed before.now after.now) }
{
    if let Some(rest) = rest_behind(before.log(), after.log()) {
        return set_of(alloc, rest);
    }
    let known = before.asked(after.log().len() as u64)?;
    if !after.has_each_once() {
        let news = news_of(alloc, &known, after.iter())?;
        return Ok(news);
    }
    let mut log = Changes::new(alloc);
    after.recall_ints();
    let mut hint = Hint::new();
    let mut rows = after.entries()?;
    while let Some(row) = rows.next() {
        if known.lacks_near(&mut hint, row.name(), row.is_dead()) {
            log.push(row.entry()?)?;
        }
    }
    log.seal();
    Ok(OrSet::of_past(Past::of_apart(log)))
}

/// The set of the rows of a pass, of which two may have one key. Each costs two look-ups.
fn set_of(alloc: Global, rows: Items<'_, Entry>) -> Result<OrSet, AllocError>
    ensures { IfOk result (λ s. s ≡ of_rows rows.entry) }
{
    let nothing = Grown::of(Past::new(alloc));
    news_of(alloc, &Asked::behind(&nothing), Pass::of_log(rows))
}

/// The set of those rows of a pass that tell more than what is asked, of which two may have one key. Each costs a look-up, and each of these rows two more.
fn news_of(alloc: Global, known: &Asked<'_>, rows: Pass<'_>) -> Result<OrSet, AllocError>
    ensures { IfOk result (λ s. s ≡ of_rows (changed known.now rows.entry)) }
{
    let mut news = OrSet::new(alloc);
    let mut along = Hint::new();
    let mut left = rows;
    while let Some(row) = left.next() {
        if known.lacks_near(&mut along, row.name(), row.is_dead()) {
            news.add(row.entry()?)?;
        }
    }
    news.ascends();
    Ok(news)
}
