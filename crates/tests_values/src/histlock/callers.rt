//! What one caller does with the lock.
ghost use Rattle.std.specs.Prelude.{◌≡◌, false, All, IfOk, IfSome};

use super::notes::{Note, Notes};
use lasp_histlock::{Held, HistLock, Pass};
use std::alloc::{AllocError, Global};
use std::sync::Wait;

// Adds one note in a turn of its own.
pub fn write<R: Wait>(
    rt: &R,
    lock: &HistLock<Notes>,
    p: &mut Pass<Notes>,
    text: u32,
) -> Result<(), AllocError>
    requires { (p.old.lock ≡ lock.now) × (p.old.turn ≡ false) }
    ensures { (p.new.lock ≡ p.old.lock) × (p.new.number ≡ p.old.number) × (p.new.made ≡ p.old.made) × (p.new.turn ≡ false) }
{
    let Held { mut value, taken } = lock.take(rt, p);
    let done = value.write(Note {
        by: p.number(),
        text,
    });
    lock.give(p, Held { value, taken });
    done
}

// Whether the pass doesn't get the value, which it gives back where it does.
pub fn misses(lock: &HistLock<Notes>, p: &mut Pass<Notes>) -> bool
    requires { (p.old.lock ≡ lock.now) × (p.old.turn ≡ false) }
    ensures { (p.new.lock ≡ p.old.lock) × (p.new.number ≡ p.old.number) × (p.new.turn ≡ false) }
{
    match lock.try_take(p) {
        Some(held) => {
            lock.give(p, held);
            false
        }
        None => true,
    }
}

// Lets a new pass write and takes it back.
pub fn write_by_another<R: Wait>(
    rt: &R,
    lock: &HistLock<Notes>,
    first: &mut Pass<Notes>,
    text: u32,
) -> Result<(), AllocError>
    requires { (first.old.lock ≡ lock.now) × (first.old.turn ≡ false) × (first.old.number ≡ 0) }
    ensures { (first.new.lock ≡ first.old.lock) × (first.new.number ≡ 0) × (first.new.turn ≡ false) }
{
    if first.made() > 1000 {
        return Ok(());
    }
    let mut other = lock.split(first)?;
    let done = write(rt, lock, &mut other, text);
    lock.rejoin(first, other);
    done
}

// The first pass splits others off while the others write.
pub fn work<R: Wait>(rt: &R, lock: &HistLock<Notes>, p: &mut Pass<Notes>)
    requires { (p.old.lock ≡ lock.now) × (p.old.turn ≡ false) }
    ensures { (p.new.lock ≡ lock.now) × (p.new.turn ≡ false) }
{
    for text in 0..500 {
        let done = if p.number() == 0 {
            write_by_another(rt, lock, p, text)
        } else {
            write(rt, lock, p, text)
        };
        if done.is_err() {
            return;
        }
    }
}

pub fn split_three(
    alloc: Global,
    lock: &HistLock<Notes>,
    mut first: Pass<Notes>,
) -> Result<Vec<Pass<Notes>>, AllocError>
    requires { (first.lock ≡ lock.now) × (first.turn ≡ false) × (first.number ≡ 0) × (first.made ≡ 1) }
    ensures { IfOk result (λ passes. All (λ p. (p.lock ≡ lock.now) × (p.turn ≡ false)) passes.items) }
{
    let second = lock.split(&mut first)?;
    let third = lock.split(&mut first)?;
    let fourth = lock.split(&mut first)?;
    let mut passes = Vec::with_capacity(alloc, 4)?;
    passes.push_reserved(second);
    passes.push_reserved(third);
    passes.push_reserved(fourth);
    passes.push_reserved(first);
    Ok(passes)
}

pub fn rejoin_all(lock: &HistLock<Notes>, mut passes: Vec<Pass<Notes>>) -> Option<Pass<Notes>>
    requires { All (λ p. (p.lock ≡ lock.now) × (p.turn ≡ false)) passes.items }
    ensures { IfSome result (λ p. (p.lock ≡ lock.now) × (p.number ≡ 0)) }
{
    let mut first = passes.pop()?;
    if first.number() != 0 {
        return None;
    }
    while let Some(other) = passes.pop() {
        lock.rejoin(&mut first, other);
    }
    Some(first)
}
