//! Reads of a store. They wait in its core, so that the entry that meets one releases it, whoever makes that.

ghost use Rattle.std.specs.Prelude.{◌≡◌, ◌↔◌, ◌+◌, [], false, IfOk, IfSome, OnOk, IsTrue, is_some};
ghost use Rattle.lasp_store.specs.Prelude.{suits, meets, arc_value, is_met, val, after_miss, HasLeast, threshold_of, held_of, IsOpen, state_after, read_of, IsBusy, HadTurn, TriedTurn, IsInTurn, HasEnded, frame_of, IfRefused};

use crate::store::{Hand, Store};
use lasp_core::{Core, ReadNo, Try, reads_stay_open};
use lasp_state::{State, Threshold};
use std::alloc::AllocError;
use std::sync::{Arc, Wait};

/// The state, where it is at the read's threshold. The comparison costs as `Threshold::meets`, and is made while others may have the core.
fn reached(r: &ReadNo, state: Arc<State>) -> Option<Arc<State>>
    requires { IsTrue (suits (read_of r.now).threshold (held_of (arc_value state)).shape) }
    ensures met { is_some result ≡ meets (read_of r.now).threshold (held_of (arc_value state)).content }
    ensures state { IfSome result (λ s. held_of (arc_value s) ≡ held_of (arc_value state)) }
{
    if r.is_met_by(&state) {
        Some(state)
    } else {
        None
    }
}

impl Store {
    fn end_open(
        &self,
        h: &mut Hand,
        mut core: Box<Core>,
        var: u8,
        threshold: Threshold,
        is_known: bool,
    ) -> Result<ReadNo, AllocError>
        requires turn { IsInTurn self.now h.old core.value }
        requires open { IsOpen (frame_of h.old) h.old.seen (record { number = 0; var = var; threshold = threshold_of threshold }) }
        requires known { IsTrue is_known → HasLeast (threshold_of threshold) (val (frame_of h.old) h.old.seen var) }
        ensures turn { HasEnded [] h.old h.new }
        ensures read { IfOk result (λ r. ((read_of r).var ≡ var) × ((read_of r).threshold ≡ threshold_of threshold)) }
    {
        core.recall();
        let opened = core.open_read_with(var, threshold, is_known);
        core.recall();
        self.end(h, core);
        opened
    }

    /// Opens a read. It waits in the core where its variable hasn't come to the threshold. The call may wait for others.
    pub fn open_read<R: Wait>(
        &self,
        rt: &R,
        h: &mut Hand,
        var: u8,
        threshold: Threshold,
    ) -> Result<ReadNo, AllocError>
        requires lock { h.old.lock ≡ self.now }
        requires idle { h.old.turn ≡ false }
        requires open { IsOpen (frame_of h.old) h.old.seen (record { number = 0; var = var; threshold = threshold_of threshold }) }
        ensures turn { HadTurn [] h.old h.new }
        ensures read { IfOk result (λ r. ((read_of r).var ≡ var) × ((read_of r).threshold ≡ threshold_of threshold)) }
        ensures open { IfOk result (λ r. IsOpen (frame_of h.new) h.new.seen (read_of r)) }
    {
        self.open_read_with(rt, h, var, threshold, false)
    }

    /// The same. Where the variable is known to hold what the threshold asks for at least, that isn't asked again. It may wait for others.
    pub fn open_read_with<R: Wait>(
        &self,
        rt: &R,
        h: &mut Hand,
        var: u8,
        threshold: Threshold,
        is_known: bool,
    ) -> Result<ReadNo, AllocError>
        requires lock { h.old.lock ≡ self.now }
        requires idle { h.old.turn ≡ false }
        requires open { IsOpen (frame_of h.old) h.old.seen (record { number = 0; var = var; threshold = threshold_of threshold }) }
        requires known { IsTrue is_known → HasLeast (threshold_of threshold) (val (frame_of h.old) h.old.seen var) }
        ensures turn { HadTurn [] h.old h.new }
        ensures read { IfOk result (λ r. ((read_of r).var ≡ var) × ((read_of r).threshold ≡ threshold_of threshold)) }
        ensures open { IfOk result (λ r. IsOpen (frame_of h.new) h.new.seen (read_of r)) }
    {
        reads_stay_open();
        let core = self.begin(rt, h);
        self.end_open(h, core, var, threshold, is_known)
    }

    /// The state of a read's variable, shared, where it is at the threshold. It may wait for others.
    pub fn poll_read<R: Wait>(
        &self,
        rt: &R,
        h: &mut Hand,
        r: &ReadNo,
    ) -> Result<Option<Arc<State>>, AllocError>
        requires lock { h.old.lock ≡ self.now }
        requires idle { h.old.turn ≡ false }
        requires open { IsOpen (frame_of h.old) h.old.seen (read_of r.now) }
        ensures turn { HadTurn [] h.old h.new }
        ensures met { IfOk result (λ found. is_some found ≡ is_met (frame_of h.new) h.new.seen (read_of r.now)) }
        ensures state { IfOk result (λ found. IfSome found (λ s. held_of (arc_value s) ≡ state_after (frame_of h.new) h.new.seen (read_of r.now).var)) }
    {
        reads_stay_open();
        match self.look(rt, h, r.var()) {
            Ok(state) => Ok(reached(r, state)),
            Err(error) => Err(error),
        }
    }

    /// The same, where nobody else has the core. It never waits.
    pub fn try_poll_read(
        &self,
        h: &mut Hand,
        r: &ReadNo,
    ) -> Result<Option<Arc<State>>, Try<AllocError>>
        requires lock { h.old.lock ≡ self.now }
        requires idle { h.old.turn ≡ false }
        requires open { IsOpen (frame_of h.old) h.old.seen (read_of r.now) }
        ensures busy { IsBusy result → h.new ≡ after_miss h.old }
        ensures missed { IsBusy result ↔ (h.new.misses ≡ h.old.misses + 1) }
        ensures ok { OnOk result (TriedTurn [] h.old h.new) }
        ensures refused { IfRefused result (λ why. TriedTurn [] h.old h.new) }
        ensures met { IfOk result (λ found. is_some found ≡ is_met (frame_of h.new) h.new.seen (read_of r.now)) }
        ensures state { IfOk result (λ found. IfSome found (λ s. held_of (arc_value s) ≡ state_after (frame_of h.new) h.new.seen (read_of r.now).var)) }
    {
        reads_stay_open();
        match self.try_look(h, r.var()) {
            Ok(state) => Ok(reached(r, state)),
            Err(why) => Err(why),
        }
    }

    fn end_close(&self, h: &mut Hand, mut core: Box<Core>, r: &ReadNo)
        requires turn { IsInTurn self.now h.old core.value }
        ensures { HasEnded [] h.old h.new }
    {
        core.recall();
        core.close_read(r);
        core.recall();
        self.end(h, core);
    }

    /// Closes a read: no call releases it any more. It may wait for others.
    pub fn close_read<R: Wait>(&self, rt: &R, h: &mut Hand, r: &ReadNo)
        requires lock { h.old.lock ≡ self.now }
        requires idle { h.old.turn ≡ false }
        ensures { HadTurn [] h.old h.new }
    {
        let core = self.begin(rt, h);
        self.end_close(h, core, r)
    }
}
