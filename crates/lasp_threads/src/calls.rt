//! How a run calls its workers to a stretch and waits until they are through.

use std::sync::Wait;
use std::sync::atomic::{AtomicBool, AtomicU64, Ordering};
use std::thread::{Parker, yield_now};
use std::time::Duration;

/// Where the number of workers that have come is at least this, no more are let in.
const CLOSED: u64 = 4_294_967_296;

/// How often the run looks whether all workers have come, at most, before it goes on with those that have.
const MOST_LOOKS: u32 = 1_000;

/// How long it rests between two looks, in microseconds.
const LOOK_REST: u64 = 64;

/// How often it lets others run, while workers are at a call, before it sleeps until they are through.
const TURNS: u32 = 32;

/// The calls to the workers of a run, each of which waits for them on a thread of its own. Threads share it.
#[derive(Drop)]
pub(crate) struct Calls {
    /// How many workers have come; from `CLOSED` on nobody is let in.
    come: AtomicU64,
    /// How many were let in.
    crew: AtomicU64,
    /// How often they were called.
    number: AtomicU64,
    /// How many aren't through with the last call.
    awaited: AtomicU64,
    is_over: AtomicBool,
}

impl Calls {
    pub(crate) fn new() -> Calls {
        Calls {
            come: AtomicU64::new(0),
            crew: AtomicU64::new(0),
            number: AtomicU64::new(0),
            awaited: AtomicU64::new(0),
            is_over: AtomicBool::new(false),
        }
    }

    /// A worker comes: whether it is let in, and so waited for at each call.
    pub(crate) fn enter(&self) -> bool {
        self.come.fetch_add(1, Ordering::SeqCst) < CLOSED
    }

    /// Waits for a call behind the one with this number, and tells its number; none where the run is over.
    pub(crate) fn next<R: Wait>(&self, rt: &R, last: u64) -> Option<u64> {
        for _ in rt.forever() {
            let number = self.number.load(Ordering::SeqCst);
            if self.is_over.load(Ordering::SeqCst) {
                return None;
            }
            if number != last {
                return Some(number);
            }
            self.number.park(rt, (last & 0xffff_ffff) as u32);
        }
        unreachable!()
    }

    /// A worker is through with the call.
    pub(crate) fn answer(&self) {
        if self.awaited.fetch_sub(1, Ordering::SeqCst) == 1 {
            self.awaited.wake_all();
        }
    }

    /// Waits until so many workers have come, but a tenth of a second at most, as not each may have got a thread. Later ones aren't let in.
    fn gather<R: Wait>(&self, rt: &R, many: u64) {
        for _ in 0..MOST_LOOKS {
            if many <= self.come.load(Ordering::SeqCst) {
                break;
            }
            Parker::new().park_timeout(rt, Duration::from_micros(LOOK_REST));
        }
        let come = self.come.fetch_add(CLOSED, Ordering::SeqCst);
        self.crew.store(come, Ordering::SeqCst);
    }

    /// Calls the workers, of whom there are so many. The first call waits until they have come.
    pub(crate) fn call<R: Wait>(&self, rt: &R, many: u64) {
        if self.come.load(Ordering::SeqCst) < CLOSED {
            self.gather(rt, many);
        }
        self.awaited
            .store(self.crew.load(Ordering::SeqCst), Ordering::SeqCst);
        self.number.fetch_add(1, Ordering::SeqCst);
        self.number.wake_all();
    }

    /// Waits until all workers are through with the call.
    pub(crate) fn wait<R: Wait>(&self, rt: &R) {
        let mut turns: u32 = 0;
        for _ in rt.forever() {
            let awaited = self.awaited.load(Ordering::SeqCst);
            if awaited == 0 {
                return;
            }
            if turns < TURNS {
                turns = turns.saturating_add(1);
                yield_now();
            } else {
                self.awaited.park(rt, (awaited & 0xffff_ffff) as u32);
            }
        }
    }

    /// The run is over: who waits for a call goes, and nobody is let in.
    pub(crate) fn end(&self) {
        self.come.fetch_add(CLOSED, Ordering::SeqCst);
        self.is_over.store(true, Ordering::SeqCst);
        self.number.fetch_add(1, Ordering::SeqCst);
        self.number.wake_all();
    }
}
