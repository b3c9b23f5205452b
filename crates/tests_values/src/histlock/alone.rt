//! Passes of one thread. What is told is compared once the lock and its passes are gone, so that no comparison has to let them go.
ghost use Rattle.std.specs.Prelude.{◌≡◌, false, IfOk};

use super::callers::{misses, write};
use super::notes::Notes;
use lasp_histlock::{Held, HistLock, Pass};
use std::alloc::{AllocError, Global};
use std::test::Fail;

/// A lock of a new list of notes, and its first two passes.
fn opened(alloc: Global) -> Result<(HistLock<Notes>, Pass<Notes>, Pass<Notes>), AllocError>
    ensures locks { IfOk result (λ made. (made.1.lock ≡ made.0) × (made.2.lock ≡ made.0)) }
    ensures first { IfOk result (λ made. (made.1.number ≡ 0) × (made.1.turn ≡ false)) }
    ensures second { IfOk result (λ made. made.2.turn ≡ false) }
{
    let (lock, mut first) = HistLock::new(alloc, Notes::about(alloc, 7))?;
    let second = lock.split(&mut first)?;
    Ok((lock, first, second))
}

/// Whether a lock closes on one note of the second pass.
fn closes_on_one_note(lock: HistLock<Notes>, first: Pass<Notes>) -> bool
    requires { (first.lock ≡ lock) × (first.number ≡ 0) }
{
    let Some(notes) = lock.close(first) else {
        return false;
    };
    match notes.entries.as_slice() {
        [note] => notes.topic == 7 && note.by == 1 && note.text == 5,
        _ => false,
    }
}

#[test]
fn a_second_pass_misses_while_the_first_has_the_turn_and_writes_after(
    rt: HostRuntime,
) -> Result<(), Fail> {
    let told = {
        let (lock, mut first, mut second) = opened(rt.alloc())?;
        let held = lock.take(&rt, &mut first);
        let missed = misses(&lock, &mut second);
        lock.give(&mut first, held);
        let is_written = !misses(&lock, &mut second) && write(&rt, &lock, &mut second, 5).is_ok();
        let counts = (second.number(), first.made(), lock.length(&mut first));
        first.known();
        lock.rejoin(&mut first, second);
        (missed, is_written, counts, closes_on_one_note(lock, first))
    };
    assert!(rt; told == (true, true, (1, 2, 1), true));
    Ok(())
}

/// Whether a lock doesn't close where its value was taken out, which has no notes.
fn stays_open(lock: HistLock<Notes>, first: Pass<Notes>, value: Notes) -> bool
    requires { (first.lock ≡ lock) × (first.number ≡ 0) }
{
    lock.close(first).is_none() && value.entries.is_empty()
}

#[test]
fn a_lock_does_not_close_while_another_pass_has_the_turn(rt: HostRuntime) -> Result<(), Fail> {
    let is_open = {
        let (lock, first, mut second) = opened(rt.alloc())?;
        let Held { value, taken: _ } = lock.take(&rt, &mut second);
        stays_open(lock, first, value)
    };
    assert!(rt; is_open);
    Ok(())
}

#[test]
fn a_lock_closes_beside_a_pass_without_a_turn(rt: HostRuntime) -> Result<(), Fail> {
    let told = {
        let (lock, first, second) = opened(rt.alloc())?;
        (lock.close(first).is_some(), second.number())
    };
    assert!(rt; told == (true, 1));
    Ok(())
}

#[test]
fn a_pass_that_comes_back_in_its_turn_shuts_the_lock_for_good(rt: HostRuntime) -> Result<(), Fail> {
    let told = {
        let (lock, mut first, mut second) = opened(rt.alloc())?;
        let Held { value, taken: _ } = lock.take(&rt, &mut second);
        lock.rejoin(&mut first, second);
        let missed = misses(&lock, &mut first);
        (missed, stays_open(lock, first, value))
    };
    assert!(rt; told == (true, true));
    Ok(())
}
