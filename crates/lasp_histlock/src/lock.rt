//! The lock and its calls.
ghost use Rattle.std.specs.Prelude.{◌≡◌, ◌≢◌, ◌⊎◌, ◌↔◌, ◌+◌, ◌<◌, ◌≤◌, true, false, [], ◌++◌, All, length, Some, IfOk, IfSome, IfNone, IsNone, IsOkAnd};
ghost use Rattle.lasp_histlock.specs.Prelude.{entries_of, Allowed, added, SomeOut, first_pass, new_pass, after_miss, after_take, after_give, after_look, after_split, after_rejoin};
ghost use mathlib.Core.List.{IsPrefix};

use crate::held::Held;
use crate::kept::Kept;
use crate::pass::Pass;
use crate::plays::Another;
use crate::rule::{Known, Rule, Slot};
use crate::{steps, turns};
use atomic_table::Table;
use std::alloc::{AllocError, Global};
use std::marker::{Brand, Model};
use std::snapshot::Snapshot;
use std::sync::Wait;
use std::thread::{Parker, yield_now};
use std::time::Duration;

/// Behind how many tries that found the value taken a pass rests.
const TURNS: u32 = 64;

/// How long it rests between two tries at most, in microseconds.
const LONGEST_REST: u32 = 512;

/// A value under a lock, which counts the history of the value. Contracts see it as which lock it is.
#[derive(Drop)]
pub struct HistLock<T: Kept + Drop> {
    table: Table<Slot<T>, Known<T>, T, Rule, Global>,
}

impl<T: Kept + Drop> Model for HistLock<T> {
    ghost use Rattle.std.specs.Prelude.{◌≡◌};
    ghost use Rattle.lasp_histlock.specs.Names.{LockId};

    ghost Value = { LockId };

    ghost view = { λ l. l.table.shared.table_id };

    ghost invariant = { λ l. l.table.shared.table_id.words ≡ 2 };
}

impl<T: Kept + Drop> HistLock<T> {
    /// A lock with the value in it, and its first pass, which has number 0. Where memory is wanting, the value is dropped.
    pub fn new(alloc: Global, value: T) -> Result<(HistLock<T>, Pass<T>), AllocError>
        requires empty { T.list value ≡ [] }
        ensures { IfOk result (λ made. made.1 ≡ first_pass made.0 (T.frame value)) }
    {
        let (table, mut seat) = Table::vacant(alloc, &[1, 0], 1, &value)?;
        steps::land::<T, Brand>(&table.shared, &mut seat);
        turns::settle(&table.shared, &mut seat, value);
        let pass = Pass {
            seat,
            number: 0,
            made: 1,
            entries: 0,
            turn: false,
        };
        Ok((HistLock { table }, pass))
    }

    /// Tries to take the value. It never waits: it makes one exchange, and answers `None` exactly where that saw the lock taken.
    pub fn try_take(&self, p: &mut Pass<T>) -> Option<Held<T>>
        requires lock { p.old.lock ≡ self.now }
        requires idle { p.old.turn ≡ false }
        ensures none { IfNone result (p.new ≡ after_miss p.old) }
        ensures some { IfSome result (λ held. p.new ≡ after_take (T.list held.value) p.old) }
        ensures seen { IfSome result (λ held. IsPrefix p.old.seen (T.list held.value)) }
        ensures told { IfSome result (λ _. p.old.told ≤ p.new.told) }
        ensures frame { IfSome result (λ held. Some (T.frame held.value) ≡ p.old.frame) }
        ensures taken { IfSome result (λ held. held.taken.value ≡ held.value) }
        ensures missed { IsNone result ↔ (p.new.misses ≡ p.old.misses + 1) }
    {
        let board = &self.table.shared;
        if !steps::open(board, &mut p.seat) {
            return None;
        }
        let value = turns::begin(board, &mut p.seat);
        p.entries = value.entries();
        p.turn = true;
        let taken = Snapshot::of(&value);
        Some(Held { value, taken })
    }

    /// Takes the value. It tries until it has it, so it may wait for another thread. Between two tries it lets others run, and rests from the 64th on, half a millisecond at most.
    pub fn take<R: Wait>(&self, rt: &R, p: &mut Pass<T>) -> Held<T>
        requires lock { p.old.lock ≡ self.now }
        requires idle { p.old.turn ≡ false }
        ensures pass { p.new ≡ after_take (T.list result.value) (record p.old { misses = p.new.misses }) }
        ensures misses { p.old.misses ≤ p.new.misses }
        ensures seen { IsPrefix p.old.seen (T.list result.value) }
        ensures told { p.old.told ≤ p.new.told }
        ensures frame { Some (T.frame result.value) ≡ p.old.frame }
        ensures taken { result.taken.value ≡ result.value }
    {
        let mut tries: u32 = 0;
        for _ in rt.forever() {
            if let Some(held) = self.try_take(p) {
                return held;
            }
            give_way(rt, tries);
            tries = tries.saturating_add(1);
        }
        unreachable!()
    }

    /// Gives the value back, with entries added to it that the pass may make, and ends the turn. The value need not be the one
    /// that was taken, but it has its list and frame.
    pub fn give(&self, p: &mut Pass<T>, held: Held<T>)
        requires lock { p.old.lock ≡ self.now }
        requires turn { p.old.turn ≡ true }
        requires list { T.list held.value ≡ p.old.seen ++ added p.old.seen (T.list held.value) }
        requires entries { All (T.may p.old.number) (added p.old.seen (T.list held.value)) }
        requires frame { Some (T.frame held.value) ≡ p.old.frame }
        ensures { p.new ≡ after_give (T.list held.value) p.old }
    {
        let Held { value, taken: _ } = held;
        let entries = value.entries();
        turns::finish::<T, Brand>(&self.table.shared, &mut p.seat, value, entries - p.entries);
        p.entries = entries;
        p.turn = false;
    }

    /// How many entries the history has, at this call's one load. It never waits.
    pub fn length(&self, p: &mut Pass<T>) -> u64
        requires lock { p.old.lock ≡ self.now }
        ensures pass { p.new ≡ after_look result p.old }
        ensures seen { length p.old.seen ≤ result }
        ensures told { p.old.told ≤ result }
    {
        steps::look(&self.table.shared, &mut p.seat)
    }

    /// A new pass, with the next number, which has seen what the first pass has. It costs two loads and takes no memory, so it
    /// always answers `Ok`.
    pub fn split(&self, p: &mut Pass<T>) -> Result<Pass<T>, AllocError>
        requires lock { p.old.lock ≡ self.now }
        requires first { p.old.number ≡ 0 }
        requires room { p.old.made < 4294967295 }
        ensures other { IsOkAnd result (λ other. other ≡ new_pass p.old) }
        ensures pass { p.new ≡ after_split p.old }
    {
        let board = &self.table.shared;
        let mut seat = board.split_seat::<Another>(&mut p.seat);
        steps::recall(board, &mut seat);
        let number = p.made;
        p.made += 1;
        Ok(Pass {
            seat,
            number,
            made: 0,
            entries: p.entries,
            turn: false,
        })
    }

    /// Takes another pass back into the first one, which then has seen what either has. It costs two loads. A pass that comes back
    /// in its turn doesn't count as back: its value is lost, and the lock stays taken.
    pub fn rejoin(&self, p: &mut Pass<T>, other: Pass<T>)
        requires lock { (p.old.lock ≡ self.now) × (other.lock ≡ self.now) }
        requires first { p.old.number ≡ 0 }
        ensures pass { p.new ≡ after_rejoin other p.old }
        ensures seen { IsPrefix p.old.seen p.new.seen × IsPrefix other.seen p.new.seen }
        ensures theirs { entries_of T.names other.number p.new.seen ≡ other.own }
        ensures frame { other.frame ≡ p.old.frame }
    {
        let board = &self.table.shared;
        let Pass { seat, entries, .. } = other;
        board.join_seat::<Another>(&mut p.seat, seat);
        steps::recall(board, &mut p.seat);
        p.entries = p.entries.max(entries);
    }

    /// Ends the lock and answers its value. It never waits: it makes at most one exchange. It answers `None` at once where the
    /// pass is in a turn, and where its exchange sees the lock taken, which takes a pass that is out; then the lock is dropped,
    /// and its value with it if nobody has that. A pass that is out without a turn hinders nothing, so `Some` doesn't say that
    /// all came back.
    pub fn close(self, p: Pass<T>) -> Option<T>
        requires lock { p.lock ≡ self }
        requires first { p.number ≡ 0 }
        ensures turn { p.turn ≡ true → IsNone result }
        ensures none { IfNone result ((p.turn ≡ true) ⊎ SomeOut p.made p.back) }
        ensures list { IfSome result (λ value. T.list value ≡ p.seen ++ added p.seen (T.list value)) }
        ensures others { IfSome result (λ value. All (λ e. T.names e ≢ 0) (added p.seen (T.list value))) }
        ensures allowed { IfSome result (λ value. All (Allowed T.names T.may) (T.list value)) }
        ensures frame { IfSome result (λ value. Some (T.frame value) ≡ p.frame) }
    {
        if p.turn {
            return None;
        }
        let Pass { mut seat, .. } = p;
        let board = &self.table.shared;
        if !steps::open(board, &mut seat) {
            return None;
        }
        Some(turns::begin(board, &mut seat))
    }
}

/// Lets others go on behind so many tries in a row that found the value taken.
fn give_way<R: Wait>(rt: &R, tries: u32) {
    if tries < TURNS {
        yield_now();
    } else {
        let micros = LONGEST_REST.min(tries);
        Parker::new().park_timeout(rt, Duration::from_micros(u64::from(micros)));
    }
}
