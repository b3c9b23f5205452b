//! One round over all replicas.

ghost use Rattle.std.specs.Prelude.{◌≡◌, All, map, IfOk, true, false};
ghost use Rattle.lasp_fns.specs.Steps as counted;
ghost use Rattle.lasp_graph.specs.Library.{library_of};
ghost use Rattle.lasp_workers.specs.Replicas.{pair_of};
ghost use Rattle.lasp_replica.specs.Jobs.{counted_up};
ghost use Rattle.lasp_workers.specs.Asked.{CountsUp, finished_by};
ghost use Rattle.lasp_workers.specs.Worked.{HaveWorked, IsLeftDone, IsDoneAt};
ghost use Rattle.lasp_workers.specs.declared.ask.Asked.TheVariants.{Done};

use crate::ask::{Asked, ask};
use crate::gate::Gate;
use crate::replicas::Replica;
use lasp_core::Jobs;
use lasp_fns::StepLib;
use std::alloc::{AllocError, Global};

/// No replica is left yet, nor waits for a variable: who was at it may have left since.
pub(crate) fn leave_none<J>(replicas: &mut [Replica<J>])
    ensures same { map pair_of replicas.new ≡ map pair_of replicas.old }
    ensures none { All (λ r. r.is_left ≡ false) replicas.new }
{
    for i in 0..replicas.len() {
        let replica = &mut replicas[i];
        replica.is_left = false;
        replica.waits_for = None;
    }
}

/// What a round came to.
#[derive(Clone, Copy)]
pub(crate) struct Round {
    /// How many jobs were finished, held at the greatest number of 64 bits.
    pub(crate) finished: u64,
    /// Whether nothing is left to do.
    pub(crate) is_done: bool,
}

/// Asks each replica once.
pub(crate) fn go_round<J: Jobs, G: Gate>(
    alloc: Global,
    worker: u32,
    replicas: &mut [Replica<J>],
    lib: &mut StepLib,
    gate: &G,
) -> Result<Round, AllocError>
    requires left { All (IsLeftDone J.frame J.list (library_of (counted.library_of lib.old))) replicas.old }
    ensures worked { CountsUp result (λ n. HaveWorked J.place J.frame J.caller J.list J.looks J.rows_owed n (counted.ticks_of lib.old) (counted.ticks_of lib.new) (map pair_of replicas.old) (map pair_of replicas.new)) }
    ensures left { All (IsLeftDone J.frame J.list (library_of (counted.library_of lib.old))) replicas.new }
    ensures done { IfOk result (λ round. round.is_done ≡ true → All (IsDoneAt J.frame J.list (library_of (counted.library_of lib.old))) (map pair_of replicas.new)) }
    ensures library { counted.library_of lib.new ≡ counted.library_of lib.old }
{
    let mut round = Round {
        finished: 0,
        is_done: true,
    };
    for i in 0..replicas.len() {
        match ask(alloc, worker, &mut replicas[i], lib, gate) {
            Ok(asked) => round = with(round, asked),
            Err(error) => return Err(error),
        }
    }
    Ok(round)
}

/// The round with one replica more, of which this came.
fn with(round: Round, asked: Asked) -> Round
    ensures finished { result.finished ≡ counted_up round.finished (finished_by asked) }
    ensures done { result.is_done ≡ true → (round.is_done ≡ true) × (asked ≡ Done) }
{
    match asked {
        Asked::Finished => Round {
            finished: round.finished.saturating_add(1),
            is_done: false,
        },
        Asked::Waits => Round {
            finished: round.finished,
            is_done: false,
        },
        Asked::Done => round,
    }
}
