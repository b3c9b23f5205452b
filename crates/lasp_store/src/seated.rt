//! A hand at its store, as workers and readers ask it.

ghost use Rattle.std.specs.Prelude.{◌≡◌};
ghost use Rattle.lasp_store.specs.Prelude.{IsSeated};

use crate::store::{Hand, Store};
use lasp_core::{Jobs, ReadNo, Released, Try, Watched, reads_stay_open};
use lasp_replica::Job;
use lasp_state::State;
use std::alloc::AllocError;
use std::marker::Model;
use std::sync::{Arc, Wait};

/// A hand at its store: jobs are taken and handed in there, and reads are polled. It counts the changed rows of its jobs while others may have the core.
#[derive(Drop)]
pub struct Seated<'a, R> {
    store: &'a Store,
    hand: Hand,
    rt: &'a R,
    owed: u64,
}

impl<'a, R> Model for Seated<'a, R> {
    ghost use Rattle.std.specs.Prelude.{ℕ};
    ghost use Rattle.std.specs.Coded.{codes};
    ghost use Rattle.lasp_core.specs.Coded.{coded_entry, coded_frame};
    ghost use Rattle.lasp_store.specs.Turn.{Knows, IsSeated};

    ghost Value = { Knows × ℕ };

    ghost coded = { Prim.hlevel (codes, coded_entry, coded_frame) };

    ghost view = { λ s. (s.hand, s.owed) };

    ghost invariant = { λ s. IsSeated s.store.now s.hand };
}

impl<'a, R> Seated<'a, R> {
    /// Seats a hand that knows a legal list.
    pub fn new(store: &'a Store, hand: Hand, rt: &'a R) -> Seated<'a, R>
        requires { IsSeated store.now hand }
        ensures { result ≡ (hand, 0) }
    {
        Seated {
            store,
            hand,
            rt,
            owed: 0,
        }
    }

    /// The hand, to be rejoined.
    pub fn into_hand(self) -> Hand
        ensures hand { result ≡ self.entry.0 }
        ensures seated { IsSeated result.lock result }
    {
        self.hand
    }
}

impl<R: Wait> Jobs for Seated<'_, R> {
    ghost use Rattle.std.specs.Prelude.{ℕ, Some, None};
    ghost use Rattle.lasp_histlock.specs.Names.{LockId};
    ghost use Rattle.lasp_store.specs.Turn.{frame_of};

    ghost Place = { LockId × ℕ };

    ghost place = { λ s. (s.0.lock, s.0.number) };

    ghost frame = { λ s. frame_of s.0 };

    ghost list = { λ s. s.0.seen };

    ghost caller = { λ s. s.0.number };

    ghost rows_owed = { λ s. s.1 };

    ghost looks = { λ s. Some s.0.looks };

    ghost told = { λ s. Some s.0.told };

    ghost core = { λ s. None };

    fn recall_legal(&self) {
        let _ = &self.hand;
    }

    fn owed(&self) -> u64 {
        self.owed
    }

    fn take(&mut self) -> Result<Option<Job>, AllocError> {
        self.hand.known();
        let taken = self.store.take(self.rt, &mut self.hand);
        self.hand.known();
        if let Ok(Some(job)) = &taken {
            self.owed = self.owed.saturating_add(job.changed_rows());
        }
        taken
    }

    fn finish(&mut self, job: Job, state: State) -> Result<Released, (Job, AllocError)> {
        self.hand.known();
        let finished = self.store.finish(self.rt, &mut self.hand, job, state);
        self.hand.known();
        finished
    }

    fn give_back(&mut self, job: Job) {
        self.hand.known();
        self.store.give_back(self.rt, &mut self.hand, job);
        self.hand.known();
    }
}

impl<R> Watched for Seated<'_, R> {
    ghost use Rattle.std.specs.Prelude.{ℕ, length};
    ghost use Rattle.lasp_histlock.specs.Names.{LockId};
    ghost use Rattle.lasp_core.specs.Core as core;
    ghost use Rattle.lasp_core.specs.Core.{state_after};
    ghost use Rattle.lasp_store.specs.Turn.{frame_of};

    ghost Place = { LockId × ℕ };

    ghost place = { λ s. (s.0.lock, s.0.number) };

    ghost misses = { λ s. s.0.misses };

    ghost looks = { λ s. s.0.looks };

    ghost now = { λ s x. state_after (frame_of s.0) s.0.seen x };

    ghost IsFresh = { λ s. length s.0.seen ≡ s.0.told };

    ghost IsOpen = { λ s r. core.IsOpen (frame_of s.0) s.0.seen r };

    fn try_poll(&mut self, r: &ReadNo) -> Result<Option<Arc<State>>, Try<AllocError>> {
        reads_stay_open();
        self.store.try_poll_read(&mut self.hand, r)
    }
}
