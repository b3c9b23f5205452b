//! How a feeder waits for its mailboxes: it gives way a few times, and then sleeps longer and longer.

use crate::signal::Signal;
use std::alloc::AllocError;
use std::sync::Wait;
use std::thread::{Parker, yield_now};
use std::time::Duration;

/// How often it gives way before it sleeps.
const YIELDS: u32 = 16;

/// How long it sleeps at first, in microseconds.
const SHORTEST_REST: u32 = 64;

/// How long it sleeps at most: a look at eight empty mailboxes takes less than a hundredth of this.
const LONGEST_REST: u32 = 2048;

/// How often it sleeps so long while some feeder hasn't begun, some four seconds. Where no thread could be made for one, it is begun
/// behind this one, which would wait for ever.
const PATIENCE: u32 = 2048;

/// How long was waited since something came.
#[derive(Drop)]
pub(crate) struct Rest {
    rounds: u32,
    micros: u32,
    lonely: u32,
}

impl Rest {
    pub(crate) fn new() -> Rest {
        Rest {
            rounds: 0,
            micros: SHORTEST_REST,
            lonely: 0,
        }
    }

    /// Something came: it begins anew.
    pub(crate) fn end(&mut self) {
        self.rounds = 0;
        self.micros = SHORTEST_REST;
    }

    /// Waits a little. It is refused where all shall stop, and where a feeder didn't begin for long.
    pub(crate) fn rest<R: Wait>(
        &mut self,
        rt: &R,
        signal: &Signal,
        nodes: u64,
    ) -> Result<(), AllocError> {
        if signal.is_stopped() {
            return Err(AllocError);
        }
        if self.rounds < YIELDS {
            self.rounds += 1;
            yield_now();
            return Ok(());
        }
        if !signal.have_begun(nodes) {
            if PATIENCE <= self.lonely {
                return Err(AllocError);
            }
            self.lonely += 1;
        }
        Parker::new().park_timeout(rt, Duration::from_micros(u64::from(self.micros)));
        self.micros = LONGEST_REST.min(self.micros.saturating_mul(2));
        Ok(())
    }
}
