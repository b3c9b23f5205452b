//! What a delivery by a delta asks of the driver: what the receiver counts, and that it takes what the delta carries.

ghost use Rattle.std.specs.Prelude.{◌≡◌, ◌∷◌, [], IfOk};
ghost use Rattle.model_world.specs.World.{Take, peer_at};
ghost use Rattle.lasp_drive.specs.Driver.{seen, run_of};
ghost use Rattle.lasp_drive.specs.Acts.{MayAct};
ghost use Rattle.lasp_delta.specs.Acts.{Did, DoesSeen, BringsTheSame, StandsFor, knows_too_little};

use crate::Delta;
use lasp_drive::{Driver, Halt, Node, NodeStop};
use lasp_wire::{Counts, Message};
use std::alloc::{AllocError, Global};

/// How many updates of each replica node p counts.
pub(crate) fn counts_at<N: Node>(
    driver: &mut Driver<N>,
    alloc: Global,
    c: u32,
    p: u8,
    i: u32,
) -> Result<Counts, AllocError>
    requires { MayAct N.view N.read c driver.old (Take p i) }
    ensures counts { IfOk result (λ counts. counts ≡ (peer_at (run_of (seen N.view N.read driver.old)).peers p).counts) }
    ensures asked { Did c (seen N.view N.read driver.old) [] (seen N.view N.read driver.new) }
{
    let _number = c;
    let _message = i;
    driver.nodes[p as usize].counts(alloc)
}

/// Node p takes message i by a part that brings it as much: the part's rows alone are looked at.
pub(crate) fn hand<N: Node>(
    driver: &mut Driver<N>,
    alloc: Global,
    c: u32,
    p: u8,
    i: u32,
    part: &Message,
) -> Result<(), Halt>
    requires may { MayAct N.view N.read c driver.old (Take p i) }
    requires brings { BringsTheSame (seen N.view N.read driver.old) p i part.now }
    ensures { DoesSeen c (seen N.view N.read driver.old) (Take p i ∷ []) result (seen N.view N.read driver.new) }
{
    let message = driver.network.receive(i)?;
    match driver.nodes[p as usize].deliver(alloc, i, &message, part) {
        Ok(()) => Ok(()),
        Err(NodeStop::TooLarge(x)) => Err(Halt::TooLarge(c, p, x)),
        Err(NodeStop::Memory) => Err(Halt::Memory),
    }
}

/// Node p takes message i by its delta, and whether there was a gap is told. Where there is none, what the delta carries is joined into what the node has, in place; where there is one, the node takes the message.
pub(crate) fn bring<N: Node>(
    driver: &mut Driver<N>,
    alloc: Global,
    c: u32,
    p: u8,
    i: u32,
    delta: &Delta,
) -> Result<bool, Halt>
    requires may { MayAct N.view N.read c driver.old (Take p i) }
    requires stands { StandsFor (seen N.view N.read driver.old) p i delta.now }
    ensures done { DoesSeen c (seen N.view N.read driver.old) (Take p i ∷ []) result (seen N.view N.read driver.new) }
    ensures gap { IfOk result (λ gap. gap ≡ knows_too_little (seen N.view N.read driver.old) p delta.now) }
{
    let known = counts_at(driver, alloc, c, p, i)?;
    match delta.check_gap(&known) {
        Ok(()) => match hand(driver, alloc, c, p, i, delta.carried()) {
            Ok(()) => Ok(false),
            Err(halt) => Err(halt),
        },
        Err(_) => match driver.take(alloc, c, p, i) {
            Ok(()) => Ok(true),
            Err(halt) => Err(halt),
        },
    }
}
