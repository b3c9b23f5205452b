//! How rows in any order come into a table and its log one by one, and which of them told more.

ghost use Rattle.std.specs.Prelude.{◌≡◌, ◌<◌, ◌≤◌, ◌+◌, ◌++◌, ◌∷◌, [], IfOk, OnOk, IsOk, length, vec_len, vec_capacity};
ghost use Rattle.indexmap.specs.IndexMap.{spare};
ghost use Rattle.model_sets.specs.Equations.{changed};
ghost use Rattle.lasp_logset.specs.Chains.{StayRows};
ghost use Rattle.lasp_logset.specs.Kept.{AreKept};
ghost use Rattle.lasp_logset.specs.Taken.{dead_first, AreDeadFirst, IsTaken};

use super::changes::Changes;
use super::coming::Coming;
use super::entry::Entry;
use super::name::Name;
use super::table::{put_in, raises};
use indexmap::IndexMap;
use std::alloc::{AllocError, Global};
use std::marker::Model;

/// A row on its way in, with one share more for those who are told where it tells more.
#[derive(Drop)]
pub(crate) struct Telling {
    coming: Coming,
    told: Entry,
}

impl Model for Telling {
    ghost use Rattle.std.specs.Prelude.{◌≡◌};
    ghost use Rattle.model_values.specs.Row.{Row, coded_row};

    ghost Value = { Row };

    ghost coded = { coded_row };

    ghost view = { λ a. a.coming };

    ghost invariant = { λ a. a.told ≡ a.coming };
}

impl Telling {
    fn of(entry: Entry) -> Result<Telling, AllocError>
        ensures { IfOk result (λ r. r ≡ entry) }
    {
        Ok(Telling {
            told: entry.try_clone()?,
            coming: Coming::of(entry)?,
        })
    }
}

/// Rows on their way in, dead ones first: so no row tells more than another one of its key that was told before.
pub(crate) fn in_turn(alloc: Global, rows: Vec<Entry>) -> Result<Vec<Telling>, AllocError>
    ensures { IfOk result (λ v. v.items ≡ dead_first rows.items) }
{
    let mut dead = Vec::with_capacity(alloc, rows.len())?;
    let mut live = Vec::new(alloc);
    let mut left = rows.into_iter();
    while let Some(entry) = left.next() {
        if entry.is_dead() {
            dead.push(Telling::of(entry)?)?;
        } else {
            live.push(Telling::of(entry)?)?;
        }
    }
    dead.append(&mut live)?;
    Ok(dead)
}

/// Puts a row in and behind those that were told, where it tells more. It costs a look-up, and one more where it does.
fn put_one(
    rows: &mut IndexMap<Name, bool>,
    log: &mut Changes,
    told: &mut Vec<Entry>,
    row: Telling,
) -> Result<(), AllocError>
    requires kept { AreKept rows.old.entries log.old.items }
    requires room { 0 < log.old.room }
    ensures log { OnOk result (log.new.items ≡ log.old.items ++ changed log.old.items (row ∷ [])) }
    ensures told { OnOk result (told.new.items ≡ told.old.items ++ changed log.old.items (row ∷ [])) }
    ensures kept { AreKept rows.new.entries log.new.items }
    ensures stay { StayRows rows.old.entries rows.new.entries }
    ensures succeeds { 0 < spare rows.old → vec_len told.old < vec_capacity told.old → IsOk result }
    ensures spare { spare rows.old ≤ spare rows.new + 1 }
    ensures room { log.old.room ≤ log.new.room + 1 }
    ensures place { vec_capacity told.old ≤ vec_capacity told.new }
    ensures many { vec_len told.new ≤ vec_len told.old + 1 }
{
    let Telling { coming, told: copy } = row;
    if !raises(rows, &coming.name, coming.entry.is_dead()) {
        return Ok(());
    }
    put_in(rows, log, coming)?;
    told.push(copy)?;
    Ok(())
}

/// Puts rows in one by one, and those that tell more into the list, which is empty. Room was made for all, so it doesn't fail.
pub(crate) fn put_told(
    rows: &mut IndexMap<Name, bool>,
    log: &mut Changes,
    told: &mut Vec<Entry>,
    coming: Vec<Telling>,
)
    requires kept { AreKept rows.old.entries log.old.items }
    requires order { AreDeadFirst coming.items }
    requires none { told.old.items ≡ [] }
    requires spare { length coming.items ≤ spare rows.old }
    requires room { length coming.items ≤ log.old.room }
    requires place { vec_len told.old + length coming.items ≤ vec_capacity told.old }
    ensures kept { AreKept rows.new.entries log.new.items }
    ensures stay { StayRows rows.old.entries rows.new.entries }
    ensures taken { IsTaken log.old.items coming.items log.new.items told.new.items }
{
    let mut left = coming.into_iter();
    while let Some(row) = left.next() {
        match put_one(rows, log, told, row) {
            Ok(()) => {}
            Err(_) => unreachable!(),
        }
    }
}
