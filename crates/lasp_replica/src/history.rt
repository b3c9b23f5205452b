//! The history of one variable: what it answers, and how it goes on.

ghost use Rattle.std.specs.Prelude.{◌≡◌, ◌≤◌, ◌<◌, ◌↔◌, [], if◌then◌else◌, Bool, true, false, IfOk, IfSome, IfNone, OnOk, OnErr, IsTrue, length, take, drop};
ghost use Rattle.lasp_replica.specs.Prelude.{AreApart, AreRises, AreRowsOf, join, of_rows, no_history, grown, version_before, rows_before, AreBelow};

use super::growth::Growth;
use lasp_logset::{Entry, OrSet, RowList};
use std::alloc::{AllocError, Global};
use std::marker::Model;
use std::mem;

/// The rows that changed a variable and the entries at which it grew, each oldest first, and a growth that is prepared. What the first growth brought is a share of a set's log, since it may be many rows at once.
#[derive(Drop)]
pub struct History {
    first: OrSet,
    log: Vec<Entry>,
    growths: Vec<Growth>,
    pending_first: OrSet,
    pending: Vec<Entry>,
    prepared: bool,
    room: usize,
}

impl Model for History {
    ghost use Rattle.std.specs.Prelude.{◌+◌, ◌++◌, vec_len, vec_capacity};
    ghost use Rattle.lasp_replica.specs.Kept.{Kept, kept, coded_kept, IsKept};

    ghost Value = { Kept };

    ghost coded = { coded_kept };

    ghost view = { λ a. kept (a.first ++ a.log.items) a.growths.items (a.pending_first ++ a.pending.items) a.prepared a.room };

    ghost invariant = { λ a. IsKept a.first a.log.items a.growths.items a.pending_first a.prepared (vec_len a.log + vec_len a.pending) (vec_len a.log + a.room) (vec_capacity a.log) (vec_len a.growths) (vec_capacity a.growths) };
}

impl History {
    /// The history of a variable to which nothing happened yet. It takes no memory.
    pub fn new(alloc: Global) -> History
        ensures history { result.history ≡ no_history }
        ensures pending { result.pending ≡ [] }
        ensures prepared { result.prepared ≡ false }
    {
        History {
            first: OrSet::new(alloc),
            log: Vec::new(alloc),
            growths: Vec::new(alloc),
            pending_first: OrSet::new(alloc),
            pending: Vec::new(alloc),
            prepared: false,
            room: 0,
        }
    }

    /// How often the variable grew.
    pub fn version(&self) -> u64
        ensures { result ≡ length self.now.history.growths }
    {
        self.growths.len() as u64
    }

    /// How often the variable grew at the first `n` entries. It costs a look at each growth since.
    pub fn version_before(&self, n: u64) -> u64
        ensures exact { result ≡ version_before self.now.history.growths n }
        ensures within { result ≤ length self.now.history.growths }
    {
        let mut count = self.growths.len();
        while count > 0 && self.growths[count - 1].entry() >= n {
            count -= 1;
        }
        count as u64
    }

    /// How many rows had changed the variable by the first `n` entries. It costs a look at each growth since.
    pub fn rows_before(&self, n: u64) -> u64
        ensures exact { result ≡ rows_before self.now.history.growths n }
        ensures within { result ≤ length self.now.history.log }
    {
        let count = self.version_before(n) as usize;
        if count == 0 {
            return 0;
        }
        self.growths[count - 1].rows()
    }

    /// Whether the variable has not grown since the first `n` entries. It costs one look.
    pub fn is_still_since(&self, n: u64) -> bool
        ensures { IsTrue result ↔ (version_before self.now.history.growths n ≡ length self.now.history.growths) }
    {
        match self.growths.last() {
            Some(last) => last.entry() < n,
            None => true,
        }
    }

    /// All rows that changed the variable, as a set. It costs an insertion for each row behind the first growth's.
    fn all_rows(&self, alloc: Global) -> Result<OrSet, AllocError>
        ensures { IfOk result (λ s. s ≡ of_rows self.now.history.log) }
    {
        self.first.ascends();
        joined(alloc, &self.first, &self.log)
    }

    /// The rows that had changed the variable by the first `n` entries, as a set. It costs an insertion for each of these rows but the first growth's, which are shared, and a look at each growth since.
    pub fn before(&self, alloc: Global, n: u64) -> Result<OrSet, AllocError>
        ensures { IfOk result (λ s. s ≡ of_rows (take (rows_before self.now.history.growths n) self.now.history.log)) }
    {
        let count = self.rows_before(n);
        if count == 0 {
            return Ok(OrSet::new(alloc));
        }
        self.first.ascends();
        let behind_first = (count - self.first.rows()) as usize;
        joined(alloc, &self.first, &self.log[..behind_first])
    }

    /// The rows by which the variable changed since the first `n` entries, oldest first, where some had changed it by then.
    fn later(&self, n: u64) -> Option<&[Entry]>
        ensures some { IfSome result (λ rows. rows.now ≡ drop (rows_before self.now.history.growths n) self.now.history.log) }
        ensures none { IfNone result (rows_before self.now.history.growths n ≡ 0) }
    {
        let left_out = self.rows_before(n);
        if left_out == 0 {
            return None;
        }
        let behind_first = (left_out - self.first.rows()) as usize;
        Some(&self.log[behind_first..])
    }

    /// The rows by which the variable changed since the first `n` entries, as a set. It costs an insertion for each of these rows but the first growth's, which are shared, and a look at each growth since.
    pub fn since(&self, alloc: Global, n: u64) -> Result<OrSet, AllocError>
        ensures { IfOk result (λ s. s ≡ of_rows (drop (rows_before self.now.history.growths n) self.now.history.log)) }
    {
        match self.later(n) {
            None => self.all_rows(alloc),
            Some(rows) => OrSet::of_rows(alloc, rows),
        }
    }

    /// The same rows as a list. It costs a share of each where the first growth isn't among them and all are live, or all dead; else an insertion for each but the first growth's besides; and a look at each growth since.
    pub fn list_since(&self, alloc: Global, n: u64) -> Result<RowList, AllocError>
        requires { AreRises [] self.now.history.log }
        ensures { IfOk result (λ rows. rows ≡ of_rows (drop (rows_before self.now.history.growths n) self.now.history.log)) }
    {
        match self.later(n) {
            None => RowList::of_set(alloc, &self.all_rows(alloc)?),
            Some(rows) => RowList::of_log(alloc, rows),
        }
    }

    /// Takes all memory that a growth by these rows needs, which are shared, in any order; for a variable that is no set, or that grew without rows, they are none. A growth that was prepared before is forgotten, except on an error. Of the first growth it costs what a share of the set's log does, of others what a list of the rows does.
    pub fn prepare(&mut self, news: &OrSet) -> Result<(), AllocError>
        ensures history { self.new.history ≡ self.old.history }
        ensures pending { OnOk result (of_rows self.new.pending ≡ news.now) }
        ensures apart { OnOk result (AreApart self.new.pending) }
        ensures prepared { OnOk result (IsTrue self.new.prepared) }
        ensures err { OnErr result (self.new ≡ self.old) }
    {
        if self.growths.is_empty() {
            return self.prepare_first(news);
        }
        let alloc = *self.log.allocator();
        let pending = RowList::of_set(alloc, news)?.into_rows();
        self.log.reserve(pending.len())?;
        self.growths.reserve(1)?;
        self.pending = pending;
        self.room = 0;
        self.prepared = true;
        Ok(())
    }

    /// Takes all memory that a first growth by these rows needs.
    fn prepare_first(&mut self, news: &OrSet) -> Result<(), AllocError>
        requires { self.old.history.growths ≡ [] }
        ensures history { self.new.history ≡ self.old.history }
        ensures pending { OnOk result (of_rows self.new.pending ≡ news.now) }
        ensures apart { OnOk result (AreApart self.new.pending) }
        ensures prepared { OnOk result (IsTrue self.new.prepared) }
        ensures err { OnErr result (self.new ≡ self.old) }
    {
        news.ascends();
        let rows = news.past()?;
        self.growths.reserve(1)?;
        self.pending_first = rows;
        self.pending = Vec::new(*self.log.allocator());
        self.room = 0;
        self.prepared = true;
        Ok(())
    }

    /// Takes all memory that a growth by at most so many rows needs, which isn't the first; until some are put in it is one by none. A growth that was prepared before is forgotten, except on an error.
    pub fn prepare_for(&mut self, rows: usize) -> Result<(), AllocError>
        requires { 0 < length self.old.history.growths }
        ensures history { self.new.history ≡ self.old.history }
        ensures pending { OnOk result (self.new.pending ≡ []) }
        ensures room { OnOk result (self.new.room ≡ rows) }
        ensures prepared { OnOk result (IsTrue self.new.prepared) }
        ensures err { OnErr result (self.new ≡ self.old) }
    {
        self.log.reserve(rows)?;
        self.growths.reserve(1)?;
        self.pending = Vec::new(*self.log.allocator());
        self.room = rows;
        self.prepared = true;
        Ok(())
    }

    /// These are the rows of the growth that is prepared, in place of those that it had. It takes no memory.
    pub fn put_in(&mut self, rows: RowList)
        requires later { 0 < length self.old.history.growths }
        requires prepared { IsTrue self.old.prepared }
        requires room { length rows ≤ self.old.room }
        ensures history { self.new.history ≡ self.old.history }
        ensures pending { AreRowsOf rows self.new.pending }
        ensures prepared { IsTrue self.new.prepared }
    {
        self.pending = rows.into_rows();
    }

    /// Records the growth that is prepared at an entry, counted from 0, behind all growths so far. It takes no memory.
    pub fn record(&mut self, entry: u64)
        requires prepared { IsTrue self.old.prepared }
        requires after { AreBelow entry self.old.history.growths }
        ensures history { self.new.history ≡ grown self.old.history self.old.pending entry }
        ensures pending { self.new.pending ≡ [] }
        ensures prepared { self.new.prepared ≡ false }
    {
        let is_first = self.growths.is_empty();
        put_first(&mut self.first, &mut self.pending_first, is_first);
        let _ = self.log.append(&mut self.pending);
        let rows = self.first.rows() + self.log.len() as u64;
        let _ = self.growths.push(Growth::new(entry, rows));
        self.prepared = false;
    }
}

/// A set's rows and those of a list, as a set. It costs an insertion for each row of the list.
fn joined(alloc: Global, first: &OrSet, later: &[Entry]) -> Result<OrSet, AllocError>
    ensures { IfOk result (λ s. s ≡ join first.now (of_rows later.now)) }
{
    let mut rows = first.past()?;
    let later = OrSet::of_rows(alloc, later)?;
    rows.join_in(&later)?;
    Ok(rows)
}

/// Puts the rows that are prepared in place if they are the first growth's.
fn put_first(first: &mut OrSet, prepared: &mut OrSet, is_first: bool)
    ensures first { first.new ≡ (if is_first then prepared.old else first.old) }
    ensures prepared { prepared.new ≡ (if is_first then first.old else prepared.old) }
{
    if is_first {
        mem::swap(first, prepared);
    }
}
