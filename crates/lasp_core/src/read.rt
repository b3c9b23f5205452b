//! Reads that wait for a threshold, and those that a call released.

ghost use Rattle.std.specs.Prelude.{◌≡◌, ◌<◌, ◌++◌, ◌∷◌, [], length, map, slice_get, Some, IfOk, IsTrue};
ghost use Rattle.lasp_core.specs.Prelude.{arc_value, suits, meets, content_of, read_of, HasLeast};
ghost use Rattle.lasp_state.specs.State.{shape_of};

use crate::look::is_met_by;
use lasp_state::{State, Threshold};
use std::alloc::{AllocError, Global};
use std::marker::Model;
use std::sync::Arc;

/// A read that was opened: its number, its variable, and how far that has to have come. Whoever has it may poll the read.
#[derive(Drop)]
pub struct ReadNo {
    pub(crate) number: u64,
    pub(crate) var: u8,
    pub(crate) threshold: Arc<Threshold>,
    /// Which value of several was lacking when it was looked for last.
    pub(crate) place: u64,
    /// Whether that is known to be lacking after the last entry.
    pub(crate) is_lacking: bool,
}

impl ReadNo {
    /// The read's number: how many were opened at its replica before.
    pub fn number(&self) -> u64
        ensures { result ≡ (read_of self.now).number }
    {
        self.number
    }

    /// The variable that it reads.
    pub fn var(&self) -> u8
        ensures { result ≡ (read_of self.now).var }
    {
        self.var
    }

    /// Whether a state of its variable has come to its threshold. The state may be a share, so that its replica isn't held meanwhile; it costs as `Threshold::meets`.
    pub fn is_met_by(&self, state: &State) -> bool
        requires { IsTrue (suits (read_of self.now).threshold (shape_of state.now)) }
        ensures { result ≡ meets (read_of self.now).threshold (content_of state.now) }
    {
        self.threshold.meets(state)
    }

    /// The same. Where the state is known to hold what the threshold asks for at least, that isn't asked again.
    pub fn is_met_with(&self, state: &State, is_known: bool) -> bool
        requires fits { IsTrue (suits (read_of self.now).threshold (shape_of state.now)) }
        requires known { IsTrue is_known → HasLeast (read_of self.now).threshold (content_of state.now) }
        ensures { result ≡ meets (read_of self.now).threshold (content_of state.now) }
    {
        is_met_by(&self.threshold, state, is_known)
    }

    /// The same read, which shares the threshold.
    pub(crate) fn twin(&self) -> Result<ReadNo, AllocError>
        ensures read { IfOk result (λ r. read_of r ≡ read_of self.now) }
        ensures lacking { IfOk result (λ r. r.is_lacking ≡ self.now.is_lacking) }
    {
        Ok(ReadNo {
            number: self.number,
            var: self.var,
            threshold: Arc::try_clone(&self.threshold)?,
            place: self.place,
            is_lacking: self.is_lacking,
        })
    }
}

/// The reads whose thresholds came to be met by one call, each once, in the order in which they were opened. Contracts see the list of their numbers, variables and thresholds.
#[derive(Drop)]
pub struct Released {
    reads: Vec<ReadNo>,
}

impl Model for Released {
    ghost use Rattle.std.specs.Prelude.{List, map};
    ghost use Rattle.model_core.specs.Core.{Read};
    ghost use Rattle.lasp_core.specs.Reads.{read_of};
    ghost use Rattle.lasp_core.specs.Coded.{coded_reads};

    ghost Value = { List Read };

    ghost coded = { coded_reads };

    ghost view = { λ a. map read_of a.reads.items };
}

impl Released {
    /// These reads.
    pub(crate) fn of(reads: Vec<ReadNo>) -> Released
        ensures { result ≡ map read_of reads.items }
    {
        Released { reads }
    }

    /// The number of reads.
    pub fn len(&self) -> u64
        ensures { result ≡ length self.now }
    {
        self.reads.len() as u64
    }

    /// The read at a place, counted from 0.
    pub fn at(&self, i: u64) -> &ReadNo
        requires { i < length self.now }
        ensures { slice_get self.now i ≡ Some (read_of result.now) }
    {
        &self.reads[i as usize]
    }
}
