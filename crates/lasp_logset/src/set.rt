//! The set: the least one, the order, the join, and how rows come in.

ghost use Rattle.std.specs.Prelude.{◌≡◌, ◌≢◌, ◌≤◌, ◌^◌, ◌↔◌, ◌++◌, ◌∷◌, [], IfOk, OnOk, OnErr, IfSome, IsTrue, length, nat_lt};
ghost use Rattle.model_sets.specs.Rows.{level, mark, of_rows, IsAtMost};
ghost use Rattle.model_sets.specs.Equations.{changed};
ghost use Rattle.model_sets.specs.Rises.{AreRises, AreApart};
ghost use Rattle.model_sets.specs.Reads.{HaveSmallInts};
ghost use Rattle.model_sets.specs.Values.{of_values, live_values, visible};
ghost use Rattle.lasp_logset.specs.Chains.{AreChained};
ghost use Rattle.lasp_logset.specs.Few.{AreSeen};
ghost use Rattle.lasp_logset.specs.Kept.{AreKept};
ghost use Rattle.lasp_logset.specs.Places.{AreFound};
ghost use Rattle.lasp_logset.specs.Taken.{IsTaken};
ghost use Rattle.lasp_logset.specs.Weights.{IsBounded, rows_weight};

use super::chains::Chains;
use super::changes::Changes;
use super::coming::Coming;
use super::entry::Entry;
use super::few::Few;
use super::name::Name;
use super::near::{Hint, level_near, raises_near};
use super::past::Past;
use super::places::Places;
use super::table::{arriving, brings_nothing, news, put_in, put_news, raises, table_of};
use super::telling::{in_turn, put_told};
use indexmap::IndexMap;
use lasp_log::Items;
use lasp_value::Value;
use std::alloc::{AllocError, Global};
use std::marker::Model;

/// An observed-remove set, seen as its log: each row tells more than the rows before it.
#[derive(Drop)]
pub struct LogSet {
    rows: IndexMap<Name, bool>,
    log: Changes,
    chains: Chains,
    places: Places,
    few: Few,
}

impl Model for LogSet {
    ghost use Rattle.std.specs.Prelude.{List};
    ghost use Rattle.model_values.specs.Row.{Row, coded_rows};
    ghost use Rattle.lasp_logset.specs.Kept.{IsSet};

    ghost Value = { List Row };

    ghost coded = { coded_rows };

    ghost view = { λ a. a.log.items };

    ghost invariant = { λ a. IsSet a.rows.entries a.log.items a.chains.newest.entries a.chains.older.items a.places.newest.entries a.places.older.items a.few.places.items a.few.upto };
}

impl LogSet {
    /// The least set, which has no rows; it takes no memory yet.
    pub fn new(alloc: Global) -> LogSet
        ensures { result ≡ [] }
    {
        LogSet {
            rows: IndexMap::new(alloc),
            log: Changes::new(alloc),
            chains: Chains::new(alloc),
            places: Places::new(alloc),
            few: Few::new(alloc),
        }
    }

    /// The least set, by the same allocator. It takes no memory yet.
    pub fn empty(&self) -> LogSet
        ensures { result ≡ [] }
    {
        LogSet::new(self.allocator())
    }

    /// The set of a log, with a table made of it. It costs an insertion for each row of the log.
    pub(crate) fn of_log(log: &Changes) -> Result<LogSet, AllocError>
        requires rises { AreRises [] log.now.items }
        requires ints { HaveSmallInts log.now.items }
        ensures { IfOk result (λ s. s ≡ log.now.items) }
    {
        Ok(LogSet {
            rows: table_of(log)?,
            log: log.share()?,
            chains: Chains::new(log.allocator()),
            places: Places::new(log.allocator()),
            few: Few::new(log.allocator()),
        })
    }

    /// The set of rows in any order: a row for each key, dead where one of them is. It costs an insertion for each, and takes the memory for all of them at once.
    pub(crate) fn of_rows(alloc: Global, rows: &[Entry]) -> Result<LogSet, AllocError>
        ensures { IfOk result (λ s. of_rows s ≡ of_rows rows.now) }
    {
        let mut set = LogSet::with_room(alloc, rows.len())?;
        for row in rows {
            set.add(row.try_clone()?)?;
        }
        Ok(set)
    }

    /// The least set, with memory for so many rows.
    fn with_room(alloc: Global, rows: usize) -> Result<LogSet, AllocError>
        ensures { IfOk result (λ s. s ≡ []) }
    {
        let mut set = LogSet::new(alloc);
        set.rows.reserve(rows)?;
        set.log.reserve(rows)?;
        Ok(set)
    }

    /// An equal set with a table of its own, which costs an insertion for each row of the log.
    pub fn try_clone(&self) -> Result<LogSet, AllocError>
        ensures { IfOk result (λ s. s ≡ self.now) }
    {
        LogSet::of_log(&self.log)
    }

    pub(crate) fn log(&self) -> &Changes
        ensures items { result.now.items ≡ self.now }
        ensures rises { AreRises [] self.now }
        ensures ints { HaveSmallInts self.now }
        ensures small { length self.now ≤ 2 ^ 32 }
    {
        let _len = self.log.len();
        &self.log
    }

    /// The allocator that the set was made with.
    pub(crate) fn allocator(&self) -> Global {
        self.log.allocator()
    }

    /// The rows by their keys, and the chains that lead to the live ones of a value.
    pub(crate) fn parts(&self) -> (&IndexMap<Name, bool>, &Chains)
        ensures kept { AreKept result.0.now.entries self.now }
        ensures apart { AreApart result.0.now.entries }
        ensures small { length result.0.now.entries ≤ 2 ^ 32 }
        ensures chained { AreChained result.0.now.entries result.1.now.newest.entries result.1.now.older.items }
    {
        let _version = self.log.len();
        let _count = self.rows.len();
        (&self.rows, &self.chains)
    }

    /// The rows, and the places of those of a value, which may lead to the first ones alone.
    pub(crate) fn first_places(&self) -> (&IndexMap<Name, bool>, &Places)
        ensures state { of_rows result.0.now.entries ≡ of_rows self.now }
        ensures apart { AreApart result.0.now.entries }
        ensures found { AreFound result.0.now.entries result.1.now.newest.entries result.1.now.older.items }
    {
        let _count = self.rows.len();
        (&self.rows, &self.places)
    }

    /// The rows, and what finds the values that they show where these are few.
    pub(crate) fn looked(&self) -> (&IndexMap<Name, bool>, &Few)
        ensures visible { of_values (live_values result.0.now.entries) ≡ visible (of_rows self.now) }
        ensures seen { AreSeen result.0.now.entries result.1.now.places.items result.1.now.upto }
    {
        let _count = self.rows.len();
        (&self.rows, &self.few)
    }

    /// Looks at the values of the rows that came since; whether all were looked at and the values are few, so that they are shown without a pass over the rows.
    pub(crate) fn find_few(&mut self) -> bool
        ensures { self.new ≡ self.old }
    {
        self.few.follow(&self.rows);
        self.few.has_all(&self.rows)
    }

    /// Brings up to date what finds the live rows of a value, so that `has` and `remove_delta` don't pass over the rows that came since. It costs a look-up for each of these.
    pub fn index_values(&mut self) -> Result<(), AllocError>
        ensures { self.new ≡ self.old }
    {
        self.chains.follow(&self.rows)
    }

    /// The same for all rows of a value, dead ones too, so that `entries_near` and `has_row` don't pass over all rows.
    pub fn index_rows(&mut self) -> Result<(), AllocError>
        ensures { self.new ≡ self.old }
    {
        self.places.follow(&self.rows)
    }

    /// `index_values`, and leaves rows out that are dead by now where they are the newest of a value. After want of memory it has left out none.
    pub fn prune_value(&mut self, value: &Value) -> Result<(), AllocError>
        ensures { self.new ≡ self.old }
    {
        self.chains.follow(&self.rows)?;
        self.chains.prune(&self.rows, value)
    }

    /// Closes the log, so that a share of it costs a count for each of a few chunks.
    pub fn close(&mut self)
        ensures { self.new ≡ self.old }
    {
        self.log.close()
    }

    /// The number of rows, dead ones counted.
    pub fn rows(&self) -> u64
        ensures exact { result ≡ length (of_rows self.now) }
        ensures small { result ≤ 2 ^ 32 }
    {
        let _version = self.log.len();
        self.rows.len() as u64
    }

    /// The number of changes: of rows that came, and of rows that died after they had come.
    pub fn version(&self) -> u64
        ensures exact { result ≡ length self.now }
        ensures small { result ≤ 2 ^ 32 }
    {
        self.log.len() as u64
    }

    /// A number that is at least what the changes weigh, in constant time.
    pub fn weight(&self) -> u64
        ensures { IsBounded (rows_weight self.now) result }
    {
        self.log.weight()
    }

    /// Recalls, at no cost, that each row of the log tells more than those before it.
    pub fn rises(&self)
        ensures { AreRises [] self.now }
    {
        let _log = &self.log;
    }

    /// Recalls, at no cost, that each number in its values has at most 64 bits.
    pub fn recall_ints(&self)
        ensures { HaveSmallInts self.now }
    {
        let _log = &self.log;
    }

    /// Whether a row tells more than the set: where no row has its key, or where it is dead in this row alone. It costs a look-up.
    pub fn raises(&self, entry: &Entry) -> bool
        ensures { result ≡ nat_lt (mark self.now entry.now.0.0 entry.now.0.1) (level entry.now.1) }
    {
        raises(&self.rows, entry.name(), entry.is_dead())
    }

    /// Whether a row of this key tells more than the set, as `raises` does, along with a log.
    pub(crate) fn lacks_near(&self, hint: &mut Hint, name: &Name, dead: bool) -> bool
        ensures { result ≡ nat_lt (mark self.now name.now.0 name.now.1) (level dead) }
    {
        raises_near(&self.rows, hint, name, dead)
    }

    /// What the set says of a key, along with a log: 0 where it has no row, 2 where that is dead, else 1.
    pub(crate) fn level_near(&self, hint: &mut Hint, name: &Name) -> u8
        ensures { result ≡ mark self.now name.now.0 name.now.1 }
    {
        level_near(&self.rows, hint, name)
    }

    /// The order: each row of this set is in the other one, and is dead there if it is dead here. It costs a look-up for each row of the log, up to the first that the other set lacks.
    pub fn le(&self, other: &LogSet) -> bool
        ensures { IsTrue result ↔ IsAtMost self.now other.now }
    {
        other.covers(&self.log)
    }

    /// Whether each row of a log is in the set, and is dead here if it is dead there.
    pub(crate) fn covers(&self, log: &Changes) -> bool
        ensures { IsTrue result ↔ IsAtMost log.now.items self.now }
    {
        brings_nothing(&self.rows, log)
    }

    /// Puts a row behind the log, where it tells more, and answers whether it does. It costs two look-ups.
    pub fn add(&mut self, entry: Entry) -> Result<bool, AllocError>
        ensures ok { OnOk result (self.new ≡ self.old ++ changed self.old (entry ∷ [])) }
        ensures grew { IfOk result (λ grew. grew ≡ nat_lt (mark self.old entry.0.0 entry.0.1) (level entry.1)) }
        ensures err { OnErr result (self.new ≡ self.old) }
    {
        if !raises(&self.rows, entry.name(), entry.is_dead()) {
            return Ok(false);
        }
        let coming = Coming::of(entry)?;
        self.log.reserve(1)?;
        put_in(&mut self.rows, &mut self.log, coming)?;
        self.log.seal();
        Ok(true)
    }

    /// Joins another set in: what is new of its log goes behind this one. It answers whether this made a difference. Each row of the other log costs a look-up, and each new one another. Where nothing is new it takes no memory.
    pub fn join_in(&mut self, other: &LogSet) -> Result<bool, AllocError>
        ensures ok { OnOk result (self.new ≡ self.old ++ changed self.old other.now) }
        ensures grew { IfOk result (λ grew. IsTrue grew ↔ (of_rows self.new ≢ of_rows self.old)) }
        ensures err { OnErr result (self.new ≡ self.old) }
    {
        other.rises();
        self.join_log(&other.log)
    }

    /// Joins a state of the past of a set in, as `join_in` does.
    pub fn join_past(&mut self, past: &Past) -> Result<bool, AllocError>
        ensures ok { OnOk result (self.new ≡ self.old ++ changed self.old past.now) }
        ensures grew { IfOk result (λ grew. IsTrue grew ↔ (of_rows self.new ≢ of_rows self.old)) }
        ensures err { OnErr result (self.new ≡ self.old) }
    {
        past.rises();
        self.join_log(past.log())
    }

    pub(crate) fn join_log(&mut self, log: &Changes) -> Result<bool, AllocError>
        requires { AreRises [] log.now.items }
        ensures ok { OnOk result (self.new ≡ self.old ++ changed self.old log.now.items) }
        ensures grew { IfOk result (λ grew. IsTrue grew ↔ (of_rows self.new ≢ of_rows self.old)) }
        ensures err { OnErr result (self.new ≡ self.old) }
    {
        let news = news(self.log.allocator(), &self.rows, log)?;
        if news.is_empty() {
            return Ok(false);
        }
        self.put_all(news)?;
        Ok(true)
    }

    /// Puts the rows of a pass behind the log, which each tell more than it and those before. Each costs a look-up.
    pub(crate) fn put_behind(&mut self, rows: Items<'_, Entry>) -> Result<(), AllocError>
        requires { AreRises self.old rows }
        ensures ok { OnOk result (self.new ≡ self.old ++ rows.entry) }
        ensures err { OnErr result (self.new ≡ self.old) }
    {
        let coming = arriving(self.log.allocator(), rows)?;
        self.put_all(coming)
    }

    /// Puts rows behind the log that each tell more than it and those before. All memory is taken first.
    fn put_all(&mut self, news: Vec<Coming>) -> Result<(), AllocError>
        requires { AreRises self.old news.items }
        ensures ok { OnOk result (self.new ≡ self.old ++ news.items) }
        ensures err { OnErr result (self.new ≡ self.old) }
    {
        self.rows.reserve(news.len())?;
        self.log.reserve(news.len())?;
        put_news(&mut self.rows, &mut self.log, news);
        self.log.seal();
        Ok(())
    }

    /// Puts rows in of which several may have one key, and gives those that told more. Each costs a look-up, and each that told more another one. All memory is taken first.
    pub(crate) fn take_rows(&mut self, rows: Vec<Entry>) -> Result<Vec<Entry>, AllocError>
        ensures taken { IfOk result (λ told. IsTaken self.old rows.items self.new told.items) }
        ensures err { OnErr result (self.new ≡ self.old) }
    {
        let alloc = self.log.allocator();
        let coming = in_turn(alloc, rows)?;
        let mut told = Vec::with_capacity(alloc, coming.len())?;
        self.rows.reserve(coming.len())?;
        self.log.reserve(coming.len())?;
        put_told(&mut self.rows, &mut self.log, &mut told, coming);
        self.log.seal();
        Ok(told)
    }

    /// The state as it is now. It costs what a share of the log does, and stays as it is when the set grows.
    pub fn past(&self) -> Result<Past, AllocError>
        ensures { IfOk result (λ p. p ≡ self.now) }
    {
        let rows = self.rows();
        Ok(Past::of(self.log.share()?, rows))
    }
}
