//! Calls of a hand, each with what it asks for. Whatever they come to, the hand may make the next one.

ghost use Rattle.std.specs.Prelude.{◌<◌, IsTrue};
ghost use Rattle.lasp_state.specs.Threshold.{threshold_of};
ghost use Rattle.lasp_core.specs.Core.{IsOpen};
ghost use Rattle.lasp_core.specs.Reads.{read_of};
ghost use Rattle.lasp_store.specs.Turn.{frame_of};
ghost use Rattle.tests_store.specs.Kept.{IsHand, MayPoll, HasAsked};

use lasp_core::{NotYet, ReadNo, Try, reads_stay_open, variables_stay};
use lasp_state::{State, Threshold};
use lasp_store::{Hand, Store};
use std::alloc::AllocError;
use std::sync::{Arc, Wait};

/// The state of a variable.
pub fn look<R: Wait>(
    rt: &R,
    store: &Store,
    h: &mut Hand,
    var: u8,
    many: u64,
) -> Result<Arc<State>, AllocError>
    requires hand { IsHand store.now many h.old }
    requires var { var < many }
    ensures { HasAsked store.now many h.old h.new }
{
    reads_stay_open();
    store.look(rt, h, var)
}

/// The state of a variable, by a call that tries once.
pub fn try_look(
    store: &Store,
    h: &mut Hand,
    var: u8,
    many: u64,
) -> Result<Arc<State>, Try<AllocError>>
    requires hand { IsHand store.now many h.old }
    requires var { var < many }
    ensures { HasAsked store.now many h.old h.new }
{
    reads_stay_open();
    store.try_look(h, var)
}

/// Whether a read of a variable may wait for so much.
fn is_suited<R: Wait>(
    rt: &R,
    store: &Store,
    h: &mut Hand,
    var: u8,
    many: u64,
    threshold: &Threshold,
) -> bool
    requires hand { IsHand store.now many h.old }
    requires var { var < many }
    ensures hand { IsHand store.now many h.new }
    ensures open { IsTrue result → IsOpen (frame_of h.new) h.new.seen (record { number = 0; var = var; threshold = threshold_of threshold.now }) }
{
    match store.look(rt, h, var) {
        Ok(state) => threshold.suits(&state),
        Err(_) => false,
    }
}

/// Opens a read; nothing where no state of the variable can be asked so, or no memory is left.
pub fn open<R: Wait>(
    rt: &R,
    store: &Store,
    h: &mut Hand,
    var: u8,
    many: u64,
    threshold: Threshold,
) -> Option<ReadNo>
    requires hand { IsHand store.now many h.old }
    requires var { var < many }
    ensures hand { IsHand store.now many h.new }
    ensures read { MayPoll h.new result }
{
    if !is_suited(rt, store, h, var, many, &threshold) {
        return None;
    }
    match store.open_read(rt, h, var, threshold) {
        Ok(read) => Some(read),
        Err(_) => None,
    }
}

/// The state of a read's variable where it is met.
pub fn poll<R: Wait>(
    rt: &R,
    store: &Store,
    h: &mut Hand,
    many: u64,
    r: &ReadNo,
) -> Result<Option<Arc<State>>, AllocError>
    requires hand { IsHand store.now many h.old }
    requires open { IsOpen (frame_of h.old) h.old.seen (read_of r.now) }
    ensures { HasAsked store.now many h.old h.new }
{
    reads_stay_open();
    store.poll_read(rt, h, r)
}

/// The same, by a call that tries once.
pub fn try_poll(
    store: &Store,
    h: &mut Hand,
    many: u64,
    r: &ReadNo,
) -> Result<Option<Arc<State>>, Try<AllocError>>
    requires hand { IsHand store.now many h.old }
    requires open { IsOpen (frame_of h.old) h.old.seen (read_of r.now) }
    ensures { HasAsked store.now many h.old h.new }
{
    reads_stay_open();
    store.try_poll_read(h, r)
}

/// Closes a read.
pub fn close<R: Wait>(rt: &R, store: &Store, h: &mut Hand, many: u64, r: &ReadNo)
    requires { IsHand store.now many h.old }
    ensures { HasAsked store.now many h.old h.new }
{
    reads_stay_open();
    store.close_read(rt, h, r);
}

/// How many entries there are where every derived variable has taken in its inputs, or which one lacks some.
pub fn check<R: Wait>(rt: &R, store: &Store, h: &mut Hand, many: u64) -> Result<u64, NotYet>
    requires { IsHand store.now many h.old }
    ensures { HasAsked store.now many h.old h.new }
{
    reads_stay_open();
    store.check_settled(rt, h)
}

/// Of which variable a job is to be done, which is given back.
pub fn ask<R: Wait>(rt: &R, store: &Store, h: &mut Hand, many: u64) -> Option<u8>
    requires { IsHand store.now many h.old }
    ensures { HasAsked store.now many h.old h.new }
{
    reads_stay_open();
    variables_stay();
    match store.take(rt, h) {
        Ok(Some(job)) => {
            let var = job.var;
            store.give_back(rt, h, job);
            Some(var)
        }
        Ok(None) => None,
        Err(_) => None,
    }
}

/// How many entries there are.
pub fn count(store: &Store, h: &mut Hand, many: u64) -> u64
    requires { IsHand store.now many h.old }
    ensures { HasAsked store.now many h.old h.new }
{
    store.length(h)
}

/// The state of a variable, by a call that waits and one that tries once.
pub fn look_twice<R: Wait>(
    rt: &R,
    store: &Store,
    h: &mut Hand,
    var: u8,
    many: u64,
) -> (Option<Arc<State>>, Option<Arc<State>>)
    requires hand { IsHand store.now many h.old }
    requires var { var < many }
    ensures { HasAsked store.now many h.old h.new }
{
    let one = look(rt, store, h, var, many);
    let other = try_look(store, h, var, many);
    (one.ok(), other.ok())
}

/// The state of a read's variable where it is met, by a call that waits and one that tries once.
pub fn poll_twice<R: Wait>(
    rt: &R,
    store: &Store,
    h: &mut Hand,
    many: u64,
    r: &ReadNo,
) -> (Option<Arc<State>>, Option<Arc<State>>)
    requires hand { IsHand store.now many h.old }
    requires open { IsOpen (frame_of h.old) h.old.seen (read_of r.now) }
    ensures { HasAsked store.now many h.old h.new }
{
    let one = poll(rt, store, h, many, r);
    let other = try_poll(store, h, many, r);
    (one.ok().flatten(), other.ok().flatten())
}
