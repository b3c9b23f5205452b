//! Who took which message, so that a test can tell that messages were lost, came again and came late.

use std::alloc::{AllocError, Global};

/// How many messages never came to a replica, came to it again, and came to it after a later one.
#[derive(Clone, Copy)]
pub struct Tally {
    pub lost: u64,
    pub again: u64,
    pub late: u64,
}

impl Tally {
    pub fn new() -> Tally {
        Tally {
            lost: 0,
            again: 0,
            late: 0,
        }
    }
}

/// The senders of a world's messages, and its deliveries in their order: the replica, and the message's number.
#[derive(Drop)]
pub struct Mail {
    senders: Vec<usize>,
    taken: Vec<(usize, usize)>,
}

impl Mail {
    pub fn new(alloc: Global) -> Mail {
        Mail {
            senders: Vec::new(alloc),
            taken: Vec::new(alloc),
        }
    }

    pub fn send(&mut self, replica: usize) -> Result<(), AllocError> {
        self.senders.push(replica)?;
        Ok(())
    }

    pub fn take(&mut self, replica: usize, message: usize) -> Result<(), AllocError> {
        self.taken.push((replica, message))?;
        Ok(())
    }

    /// Adds what became of the messages at so many replicas.
    pub fn count(&self, replicas: usize, tally: &mut Tally) {
        for place in 0..self.taken.len() {
            self.count_one(place, tally);
        }
        for replica in 0..replicas {
            let lost = self.missed(replica);
            tally.lost = tally.lost.saturating_add(lost);
        }
    }

    /// Counts a delivery of a message that the replica had taken, or of one that was sent before another that it had taken.
    fn count_one(&self, place: usize, tally: &mut Tally) {
        let Some(&(replica, message)) = self.taken.get(place) else {
            return;
        };
        let mut again = false;
        let mut late = false;
        for &(other, earlier) in self.taken.iter().take(place) {
            if other == replica {
                again = again || earlier == message;
                late = late || earlier > message;
            }
        }
        if again {
            tally.again = tally.again.saturating_add(1);
        } else if late {
            tally.late = tally.late.saturating_add(1);
        }
    }

    /// How many messages of others the replica never took.
    fn missed(&self, replica: usize) -> u64 {
        let mut missed = 0u64;
        for message in 0..self.senders.len() {
            if self.senders[message] != replica && !self.has(replica, message) {
                missed = missed.saturating_add(1);
            }
        }
        missed
    }

    fn has(&self, replica: usize, message: usize) -> bool {
        for &(other, taken) in &self.taken {
            if other == replica && taken == message {
                return true;
            }
        }
        false
    }
}
