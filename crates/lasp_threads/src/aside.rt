//! Workers on threads of their own while a call is made on this one.

ghost use Rattle.std.specs.Prelude.{◌≡◌, ◌≤◌, map, vec_capacity};

use crate::shared::Shared;
use crate::worker::Works;
use std::thread::{Threads, join};

/// Makes a call while all workers wait for calls of theirs, each on a thread of its own where one can be had, and tells them behind it that the run is over. The call is made on this thread.
#[cycle(work_beside)]
pub(crate) fn work_beside<R: Threads, T: Sync, W: Works<T> + Send, A, F: FnOnce() -> A>(
    rt: &R,
    mut workers: Vec<W>,
    tools: &T,
    shared: &Shared,
    call: F,
) -> (Vec<W>, A)
    requires { F.pre call }
    ensures done { F.post call result.1 }
    ensures place { map W.place result.0.items ≡ map W.place workers.items }
    ensures room { vec_capacity workers ≤ vec_capacity result.0 }
{
    let Some(last) = workers.pop() else {
        let answer = call();
        shared.calls.end();
        return (workers, answer);
    };
    let own = move || -> W
        ensures { W.place result ≡ W.place last }
    {
        let mut worker = last;
        worker.work(tools, shared);
        worker
    };
    let others = move || -> (Vec<W>, A)
        requires { F.pre call }
        ensures { F.post call result.1 × (map W.place result.0.items ≡ map W.place workers.items) × (vec_capacity workers ≤ vec_capacity result.0) }
    { work_beside(rt, workers, tools, shared, call) };
    let (last, (mut workers, answer)) = join(rt, own, others);
    match workers.push(last) {
        Ok(()) => (workers, answer),
        Err(_) => unreachable!(),
    }
}
