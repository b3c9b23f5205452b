//! Output in memory, some of whose writes fail.
ghost use Rattle.std.specs.Prelude.{◌≡◌, ℕ, ◌≤◌, ◌↔◌, ◌++◌, List, [], Some, if◌then◌else◌, length, take, IfOk, OnOk, OnErr, IsTrue, is_err};
ghost use Rattle.lasp_edge.specs.Prelude.{nat_eq, Rose, counted, AppendsPrefix, set_after, taken_count};
ghost use Rattle.model_values.specs.Told.{Appends};
ghost use Rattle.lasp_edge.specs.MemSink.{next_fails};

use crate::count::count_fault;
use crate::error::Failed;
use crate::sink::Sink;
use std::alloc::{AllocError, Global};
use std::collections::BTreeMap;
use std::marker::Model;

/// Output in memory, with room for so many bytes. Some writes are set to fail. A write takes no
/// memory.
#[derive(Drop)]
pub struct MemSink {
    bytes: Vec<u8>,
    room: u64,
    failing: BTreeMap<u64, u64>,
    calls: u64,
    faults: u64,
}

impl Model for MemSink {
    ghost use Rattle.std.specs.Prelude.{◌≤◌, length, vec_capacity};
    ghost use Rattle.lasp_edge.specs.MemSink.{Tape};

    ghost Value = { Tape };

    ghost view = { λ a. record { bytes = a.bytes.items; room = a.room; failing = a.failing.entries; calls = a.calls; faults = a.faults } };

    ghost invariant = { λ a. (length a.bytes.items ≤ a.room) × (a.room ≤ vec_capacity a.bytes) };
}

impl MemSink {
    /// Output with room for this many bytes, for which it takes the memory.
    pub fn new(alloc: Global, room: u64) -> Result<MemSink, AllocError>
        ensures { IfOk result (λ sink. sink ≡ record { bytes = []; room = room; failing = []; calls = 0; faults = 0 }) }
    {
        Ok(MemSink {
            bytes: Vec::with_capacity(alloc, room as usize)?,
            room,
            failing: BTreeMap::new(alloc),
            calls: 0,
            faults: 0,
        })
    }

    /// Lets the write of this number fail, counted from 0, once it has appended `after` bytes or,
    /// where not so many fit, those that fit. A number that is set already gets this `after`.
    pub fn fail_at(&mut self, call: u64, after: u64) -> Result<(), AllocError>
        ensures ok { OnOk result ((c : ℕ) → set_after self.new c ≡ (if nat_eq call c then Some after else set_after self.old c)) }
        ensures same { self.new ≡ record self.old { failing = self.new.failing } }
        ensures err { OnErr result (self.new ≡ self.old) }
    {
        self.failing.insert(call, after)?;
        Ok(())
    }

    /// All bytes that were written.
    pub fn bytes(&self) -> &[u8]
        ensures { result.now ≡ self.now.bytes }
    {
        self.bytes.as_slice()
    }
}

impl Sink for MemSink {
    ghost use Rattle.std.specs.Prelude.{Some};

    ghost written = { λ tape. Some tape.bytes };

    ghost faults = { λ tape. tape.faults };

    /// The write fails where it is set to, or where the bytes don't fit. It then appends as many of
    /// its first bytes as fit, and no more than it is set to.
    fn put(&mut self, bytes: &[u8]) -> Result<(), Failed>
        ensures later { self.old.faults ≤ self.new.faults }
        ensures ok { OnOk result (Appends (Some self.old.bytes) bytes.now (Some self.new.bytes)) }
        ensures part { OnErr result (AppendsPrefix (Some self.old.bytes) bytes.now (Some self.new.bytes)) }
        ensures failed { OnErr result (Rose self.old.faults self.new.faults) }

        // What this type says beyond its trait.
        ensures after { self.new ≡ record self.old {
          bytes = self.old.bytes ++ take (taken_count self.old (length bytes.now)) bytes.now;
          calls = counted self.old.calls;
          faults = (if next_fails self.old (length bytes.now) then counted self.old.faults else self.old.faults);
        } }
        ensures fails { is_err result ≡ next_fails self.old (length bytes.now) }
    {
        let call = self.calls;
        self.calls = call.saturating_add(1);
        let space = self.room as usize - self.bytes.len();
        let fitting = bytes.len().min(space);
        let after = self.failing.get(&call);
        let taken = match after {
            Some(bound) => fitting.min(*bound as usize),
            None => fitting,
        };
        // The room was taken when the output was made, so there is room for these.
        let _ = self.bytes.extend_from_slice(&bytes[..taken]);
        if after.is_some() || bytes.len() > space {
            count_fault(&mut self.faults);
            return Err(Failed);
        }
        Ok(())
    }
}
