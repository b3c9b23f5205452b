//! The table that finds rows by their keys, and how rows come into it and into the log.

ghost use Rattle.std.specs.Prelude.{◌≡◌, ◌<◌, ◌≤◌, ◌+◌, ◌↔◌, ◌++◌, ◌∷◌, [], IfOk, OnOk, OnErr, IsOk, IsTrue, length, nat_lt};
ghost use Rattle.indexmap.specs.IndexMap.{spare};
ghost use Rattle.model_sets.specs.Rows.{level, mark};
ghost use Rattle.model_sets.specs.Equations.{changed};
ghost use Rattle.model_sets.specs.Loops.{new_rows};
ghost use Rattle.model_sets.specs.Reads.{HaveSmallInts};
ghost use Rattle.model_sets.specs.Rises.{AreRises};
ghost use Rattle.lasp_logset.specs.Chains.{StayRows};
ghost use Rattle.lasp_logset.specs.Kept.{AreKept};

use super::changes::Changes;
use super::coming::Coming;
use super::entry::Entry;
use super::name::Name;
use super::near::{Hint, raises_near};
use indexmap::IndexMap;
use lasp_log::Items;
use std::alloc::{AllocError, Global};

/// Whether a row of this key tells more than the table: where no row has the key, or where it is dead in this row alone. It costs a look-up.
#[tactic(auto, using(crate::proofs::KeptLaws::look_up))]
pub(crate) fn raises(rows: &IndexMap<Name, bool>, name: &Name, dead: bool) -> bool
    ensures { result ≡ nat_lt (mark rows.now.entries name.now.0 name.now.1) (level dead) }
{
    let _count = rows.len();
    match rows.get(name) {
        Some(known) => is_more(*known, dead),
        None => true,
    }
}

/// Whether a row is dead and the known one isn't.
fn is_more(known: bool, dead: bool) -> bool
    ensures { result ≡ nat_lt (level known) (level dead) }
{
    dead && !known
}

/// The rows of a log that tell more than the table, in the log's order. It costs a look-up for each row.
pub(crate) fn news(
    alloc: Global,
    rows: &IndexMap<Name, bool>,
    log: &Changes,
) -> Result<Vec<Coming>, AllocError>
    ensures { IfOk result (λ v. v.items ≡ changed rows.now.entries log.now.items) }
{
    let mut news = Vec::new(alloc);
    let mut hint = Hint::new();
    let mut left = log.iter();
    while let Some(entry) = left.next() {
        if raises_near(rows, &mut hint, entry.name(), entry.is_dead()) {
            news.push(Coming::of(entry.try_clone()?)?)?;
        }
    }
    Ok(news)
}

/// The rows of a pass with their keys for a table.
pub(crate) fn arriving(alloc: Global, rows: Items<'_, Entry>) -> Result<Vec<Coming>, AllocError>
    ensures { IfOk result (λ v. v.items ≡ rows.entry) }
{
    let mut coming = Vec::new(alloc);
    let mut left = rows;
    while let Some(entry) = left.next() {
        coming.push(Coming::of(entry.try_clone()?)?)?;
    }
    Ok(coming)
}

/// Whether no row of a log tells more than the table.
pub(crate) fn brings_nothing(rows: &IndexMap<Name, bool>, log: &Changes) -> bool
    ensures { IsTrue result ↔ (changed rows.now.entries log.now.items ≡ []) }
{
    let mut hint = Hint::new();
    let mut left = log.iter();
    while let Some(entry) = left.next() {
        if raises_near(rows, &mut hint, entry.name(), entry.is_dead()) {
            return false;
        }
    }
    true
}

/// The table of a log. It costs an insertion for each of its rows.
pub(crate) fn table_of(log: &Changes) -> Result<IndexMap<Name, bool>, AllocError>
    requires rises { AreRises [] log.now.items }
    requires ints { HaveSmallInts log.now.items }
    ensures { IfOk result (λ rows. AreKept rows.entries log.now.items) }
{
    let mut rows = IndexMap::new(log.allocator());
    rows.reserve(log.len())?;
    let mut left = log.iter();
    while let Some(entry) = left.next() {
        rows.insert(entry.name().share()?, entry.is_dead())?;
    }
    Ok(rows)
}

/// The number of the other table's rows whose key no row of the table has. It costs a look-up for each.
pub(crate) fn count_new(rows: &IndexMap<Name, bool>, other: &IndexMap<Name, bool>) -> u64
    ensures exact { result ≡ new_rows rows.now.entries other.now.entries }
    ensures few { result ≤ length other.now.entries }
{
    let mut count = 0u64;
    let mut left = other.iter();
    while let Some((name, _)) = left.next() {
        if raises(rows, name, false) {
            count += 1;
        }
    }
    count
}

/// Puts a row that tells more into the table and behind the log. It costs a look-up.
pub(crate) fn put_in(
    rows: &mut IndexMap<Name, bool>,
    log: &mut Changes,
    coming: Coming,
) -> Result<(), AllocError>
    requires kept { AreKept rows.old.entries log.old.items }
    requires raises { mark rows.old.entries coming.0.0 coming.0.1 < level coming.1 }
    requires room { 0 < log.old.room }
    ensures ok { OnOk result (log.new.items ≡ log.old.items ++ coming ∷ []) }
    ensures err { OnErr result (log.new.items ≡ log.old.items) }
    ensures kept { AreKept rows.new.entries log.new.items }
    ensures stay { StayRows rows.old.entries rows.new.entries }
    ensures succeeds { 0 < spare rows.old → IsOk result }
    ensures spare { spare rows.old ≤ spare rows.new + 1 }
    ensures room { log.old.room ≤ log.new.room + 1 }
{
    let Coming { name, entry } = coming;
    name.recall_ints();
    let dead = entry.is_dead();
    rows.insert(name, dead)?;
    log.push(entry)
}

/// Puts rows that tell more, each than those before it, into the table and behind the log. Room was made for all, so it doesn't fail.
pub(crate) fn put_news(rows: &mut IndexMap<Name, bool>, log: &mut Changes, news: Vec<Coming>)
    requires kept { AreKept rows.old.entries log.old.items }
    requires rises { AreRises log.old.items news.items }
    requires spare { length news.items ≤ spare rows.old }
    requires room { length news.items ≤ log.old.room }
    ensures items { log.new.items ≡ log.old.items ++ news.items }
    ensures kept { AreKept rows.new.entries log.new.items }
    ensures stay { StayRows rows.old.entries rows.new.entries }
{
    let mut left = news.into_iter();
    while let Some(coming) = left.next() {
        match put_in(rows, log, coming) {
            Ok(()) => {}
            Err(_) => unreachable!(),
        }
    }
}
