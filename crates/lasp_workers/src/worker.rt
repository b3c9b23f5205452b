//! The worker's loop.

ghost use Rattle.std.specs.Prelude.{◌≡◌, ◌+◌, ◌-◌, ◌<◌, ◌≤◌, All, None, IfOk, OnOk};
ghost use Rattle.std.specs.List.{AllZip};
ghost use Rattle.lasp_fns.specs.Steps as counted;
ghost use Rattle.lasp_graph.specs.Library.{library_of};
ghost use Rattle.lasp_replica.specs.Jobs.{greatest_count, counted_up};
ghost use Rattle.lasp_workers.specs.Replicas.{pairs_of};
ghost use Rattle.lasp_workers.specs.Worked.{IsLater, IsDoneAt, own_entries, all_entries, all_owed};

use crate::gate::Gate;
use crate::replicas::Replicas;
use crate::round::{go_round, leave_none};
use lasp_core::Jobs;
use lasp_fns::StepLib;
use std::alloc::{AllocError, Global};
use std::sync::Wait;
use std::sync::atomic::{AtomicBool, Ordering};
use std::thread::{Parker, yield_now};
use std::time::Duration;

/// How long a worker rests at first before it asks, in microseconds: what comes together is evaluated together.
const SHORTEST_REST: u32 = 4_096;

/// How long it rests at most.
const LONGEST_REST: u32 = 262_144;

/// How long a part of a rest is, behind which it sees whether more comes.
const PART: u32 = 256;

/// How often it lets others run where all that is left is what the gate keeps it from, before it rests.
const TURNS: u32 = 64;

/// How long it rests at most where that is all.
const LONGEST_WAIT: u32 = 1_024;

/// Takes a job of each replica in turn, passes the gate, evaluates the job and hands its result in, round after round, and tells how many jobs were finished, held at the greatest number of 64 bits. It ends after a round that began with `more` lowered and found nothing to do. While `more` is raised, a worker rests before each round, four milliseconds at first, four times as long as before the last one, and a quarter of a second at most, so that what comes together is evaluated together; it ends its rest within a quarter of a millisecond where `more` is lowered. Behind that it waits only where all that is left to do is what the gate keeps it from: it lets others run, and then rests, a millisecond at most.
///
/// A replica whose job can't be evaluated, since the library lacks a function of its graph or the result would have more than 65,536 rows, is left for the rest of the call. Where there is no memory, all jobs were given back. It may wait for others where a replica's calls do.
pub fn work<R: Wait, J: Jobs, G: Gate>(
    rt: &R,
    alloc: Global,
    worker: u32,
    replicas: &mut Replicas<J>,
    lib: &mut StepLib,
    gate: &G,
    more: &AtomicBool,
) -> Result<u64, AllocError>
    ensures each { AllZip (IsLater J.place J.frame J.caller J.list) (pairs_of replicas.old) (pairs_of replicas.new) }
    ensures done { OnOk result (All (IsDoneAt J.frame J.list (library_of (counted.library_of lib.old))) (pairs_of replicas.new)) }
    ensures finished { IfOk result (λ n. n ≡ counted_up 0 (own_entries J.caller J.list (pairs_of replicas.new) - own_entries J.caller J.list (pairs_of replicas.old))) }
    ensures alone { IfOk result (λ n. All (λ p. J.looks p.1 ≡ None) (pairs_of replicas.old) → n ≡ counted_up 0 (all_entries J.list (pairs_of replicas.new) - all_entries J.list (pairs_of replicas.old))) }
    ensures library { counted.library_of lib.new ≡ counted.library_of lib.old }
    ensures ticks { All (λ p. J.rows_owed p.1 < greatest_count) (pairs_of replicas.new) → counted.ticks_of lib.new + all_owed J.rows_owed (pairs_of replicas.old) ≤ counted.ticks_of lib.old + all_owed J.rows_owed (pairs_of replicas.new) }
{
    let items = &mut replicas.items;
    leave_none(items);
    let mut finished: u64 = 0;
    let mut pause: u32 = SHORTEST_REST;
    let mut waits: u32 = 0;
    for _ in rt.forever() {
        rest_for_more(rt, pause, more);
        let is_last = !more.load(Ordering::SeqCst);
        let round = go_round(alloc, worker, items, lib, gate)?;
        finished = finished.saturating_add(round.finished);
        if is_last {
            if round.is_done {
                return Ok(finished);
            }
            waits = give_way(rt, waits, round.finished);
        }
        pause = LONGEST_REST.min(4 * pause);
    }
    unreachable!()
}

/// Rests as long as more comes, for so many microseconds at most.
fn rest_for_more<R: Wait>(rt: &R, micros: u32, more: &AtomicBool) {
    for _ in 0..micros / PART {
        if !more.load(Ordering::SeqCst) {
            return;
        }
        rest(rt, PART);
    }
}

/// Lets others go on behind a round that finished so many jobs, the longer the more such rounds before it finished none. Tells how many did.
fn give_way<R: Wait>(rt: &R, waits: u32, finished: u64) -> u32 {
    if finished > 0 {
        return 0;
    }
    if waits < TURNS {
        yield_now();
    } else {
        let micros = waits.saturating_sub(TURNS).saturating_mul(8);
        rest(rt, LONGEST_WAIT.min(micros));
    }
    waits.saturating_add(1)
}

/// Sleeps for so many microseconds.
fn rest<R: Wait>(rt: &R, micros: u32) {
    Parker::new().park_timeout(rt, Duration::from_micros(u64::from(micros)));
}
