//! Passes of several threads.
ghost use Rattle.std.specs.Prelude.{◌≡◌, false, All};

use super::callers::{rejoin_all, split_three, work};
use super::notes::Notes;
use lasp_histlock::{HistLock, Pass};
use std::sync::Wait;
use std::test::Fail;
use std::thread::{Threads, for_each_mut};

fn work_together<R: Threads + Wait + Sync>(
    rt: &R,
    lock: &HistLock<Notes>,
    passes: &mut [Pass<Notes>],
)
    requires { All (λ p. (p.lock ≡ lock.now) × (p.turn ≡ false)) passes.old }
    ensures { All (λ p. (p.lock ≡ lock.now) × (p.turn ≡ false)) passes.new }
{
    for_each_mut(rt, passes, 4, &|_, p| work(rt, lock, p));
}

/// The value, where the lock closes on all passes.
fn closed(lock: HistLock<Notes>, passes: Vec<Pass<Notes>>) -> Option<Notes>
    requires { All (λ p. (p.lock ≡ lock) × (p.turn ≡ false)) passes.items }
{
    let first = rejoin_all(&lock, passes)?;
    lock.close(first)
}

/// How many notes a pass wrote, if their texts are 0, 1 and so on.
fn notes_in_order(value: &Notes, by: u64) -> u32 {
    let mut next = 0u32;
    for note in &value.entries {
        if note.by == by && note.text == next {
            next = next.saturating_add(1);
        }
    }
    next
}

/// Whether each of 500 passes that came and went wrote one note, with its number.
fn came_and_went(value: &Notes) -> bool {
    let mut next = 0u32;
    for note in &value.entries {
        if note.by == next as u64 + 4 && note.text == next {
            next = next.saturating_add(1);
        }
    }
    next == 500
}

#[test]
fn three_threads_write_while_the_first_lets_other_passes_write(
    rt: HostRuntime,
) -> Result<(), Fail> {
    let (lock, first) = HistLock::new(rt.alloc(), Notes::about(rt.alloc(), 7))?;
    let mut passes = split_three(rt.alloc(), &lock, first)?;
    work_together(&rt, &lock, passes.as_mut_slice());
    let value = closed(lock, passes).ok_or("a lock whose passes all came back didn't close")?;
    assert!(rt; value.entries.len() == 2000 && came_and_went(&value));
    for by in 1..4 {
        assert_eq!(rt; notes_in_order(&value, by), 500);
    }
    Ok(())
}
