//! Taking from the mailboxes of a node.

ghost use Rattle.std.specs.Prelude.{◌≡◌, ◌+◌, ◌*◌, ◌<◌, ◌≤◌, OnOk, IfSome, IfNone, None, Some, length, slice_get};
ghost use Rattle.lasp_live.specs.Prelude.{arc_value, AreMadeByTheirCallers, HaveEnded, Hears, HearsMore, In, IsLegal, IsSealed, IsTakenFrom, frame_in, frame_of, too_large, total_in};
ghost use Rattle.model_live.specs.Knows.{Knows};
ghost use Rattle.lasp_live.specs.Steady.{MayHear, HasDelivered, setting};

use crate::feeder::Feeder;
use crate::log::have_all_ended;
use crate::mail::{Letter, Mail};
use crate::own::Own;
use crate::rest::Rest;
use crate::signal::Signal;
use lasp_core::DeliverRefused;
use lasp_graph::Graph;
use lasp_mail::{Inlet, Item, Mailbox};
use lasp_script::Script;
use std::alloc::AllocError;
use std::sync::{Arc, Wait};

/// The numbers of one node's messages.
const NUMBERS_OF_ONE: u32 = 100_000;

/// Delivers a letter of node q that came as the item with this number, unless memory is wanting. It is refused, too, where it tells this node of what it didn't do, or has too great a number: in a run no such letter comes, but the mailboxes don't tell so.
#[tactic(auto, using(crate::proofs::TakeLaws::learnings))]
fn deliver<F: Feeder>(
    f: &mut F,
    me: u8,
    graph: &Graph,
    own: &Own,
    q: u8,
    number: u64,
    letter: &Letter,
) -> Result<(), AllocError>
    requires letter { letter.now.1.0 ≡ graph.now }
    requires member { (me < letter.now.1.1.nodes) × (letter.now.1.1.nodes ≤ 8) × (q < letter.now.1.1.nodes) }
    requires size { length own.now.totals.items ≡ length graph.now }
    requires frame { F.frame f.old ≡ frame_of letter.now.1.0 letter.now.1.1.nodes me }
    requires small { too_large letter.now.1.0 letter.now.1.1 ≡ None }
    requires knows { Knows letter.now.1.0 letter.now.1.1 me own.now.updates (total_in own.now) (F.seen f.old) }
    ensures place { F.place f.new ≡ F.place f.old }
    ensures frame { F.frame f.new ≡ F.frame f.old }
    ensures letter { IsSealed letter.now }
    ensures legal { OnOk result (IsLegal (F.frame f.new) (F.seen f.new)) }
    ensures made { OnOk result (AreMadeByTheirCallers (F.seen f.new)) }
    ensures delivered { HasDelivered (F.frame f.old) graph.now own.now q number letter.now.0 (F.seen f.old) result (F.seen f.new) }
{
    letter.recall();
    if number >= u64::from(NUMBERS_OF_ONE) {
        return Err(AllocError);
    }
    if !own.is_news(graph, me, letter.message()) {
        return Err(AllocError);
    }
    match f.deliver(
        u32::from(q) * NUMBERS_OF_ONE + number as u32,
        letter.message(),
    ) {
        Ok(_) => {
            f.recall();
            Ok(())
        }
        Err(DeliverRefused::Memory) => Err(AllocError),
        Err(DeliverRefused::WrongGraph) => {
            f.recall();
            unreachable!()
        }
        Err(DeliverRefused::TooManyRows(_)) => {
            f.recall();
            unreachable!()
        }
    }
}

/// Takes the next item that node q put into the mailbox to this node, if there is one.
fn take_from<R: Wait>(
    rt: &R,
    me: u8,
    boxes: &[Mailbox<Mail>],
    ins: &mut Vec<Inlet<Mail>>,
    q: u8,
) -> Option<Item<Mail>>
    requires few { length ins.old.items ≤ 8 }
    requires there { q < length ins.old.items }
    requires of { (i : In) → slice_get ins.old.items q ≡ Some i → slice_get boxes.now (q * length ins.old.items + me) ≡ Some i.of }
    ensures some { IfSome result (λ item. IsTakenFrom q item ins.old.items ins.new.items) }
    ensures none { IfNone result (ins.new.items ≡ ins.old.items) }
{
    let mailbox = &boxes[usize::from(q) * ins.len() + usize::from(me)];
    mailbox.take(rt, &mut ins[usize::from(q)])
}

/// Takes one item of node q, if more is to come of it and there is one. True where there was.
#[tactic(auto, using(crate::proofs::TakeLaws::takings))]
fn take_one<R: Wait, F: Feeder>(
    rt: &R,
    f: &mut F,
    me: u8,
    graph: &Arc<Graph>,
    script: &Arc<Script>,
    boxes: &[Mailbox<Mail>],
    ins: &mut Vec<Inlet<Mail>>,
    own: &Own,
    ended: &mut Vec<bool>,
    q: u8,
) -> Result<bool, AllocError>
    requires may { MayHear (setting (arc_value graph.now) (arc_value script.now) me) boxes.now ins.old.items }
    requires frame { F.frame f.old ≡ frame_in (setting (arc_value graph.now) (arc_value script.now) me) }
    requires sender { q < (arc_value script.now).nodes }
    requires size { length own.now.totals.items ≡ length (arc_value graph.now) }
    requires hears { Hears (setting (arc_value graph.now) (arc_value script.now) me) (F.seen f.old) own.now ended.old.items ins.old.items }
    ensures place { F.place f.new ≡ F.place f.old }
    ensures frame { F.frame f.new ≡ F.frame f.old }
    ensures may { MayHear (setting (arc_value graph.now) (arc_value script.now) me) boxes.now ins.new.items }
    ensures hears { OnOk result (Hears (setting (arc_value graph.now) (arc_value script.now) me) (F.seen f.new) own.now ended.new.items ins.new.items) }
    ensures more { OnOk result (HearsMore (F.seen f.old) (F.seen f.new)) }
{
    if ended[usize::from(q)] {
        return Ok(false);
    }
    match take_from(rt, me, boxes, ins, q) {
        None => Ok(false),
        Some(item) => match &item.body {
            Mail::Letter(letter) => {
                deliver(f, me, graph, own, q, item.number, letter)?;
                Ok(true)
            }
            Mail::End(_, _) => {
                ended[usize::from(q)] = true;
                Ok(true)
            }
        },
    }
}

/// Takes one item of each node, lower ones first. True where there was one.
pub(crate) fn take_round<R: Wait, F: Feeder>(
    rt: &R,
    f: &mut F,
    me: u8,
    graph: &Arc<Graph>,
    script: &Arc<Script>,
    boxes: &[Mailbox<Mail>],
    ins: &mut Vec<Inlet<Mail>>,
    own: &Own,
    ended: &mut Vec<bool>,
) -> Result<bool, AllocError>
    requires may { MayHear (setting (arc_value graph.now) (arc_value script.now) me) boxes.now ins.old.items }
    requires frame { F.frame f.old ≡ frame_in (setting (arc_value graph.now) (arc_value script.now) me) }
    requires size { length own.now.totals.items ≡ length (arc_value graph.now) }
    requires hears { Hears (setting (arc_value graph.now) (arc_value script.now) me) (F.seen f.old) own.now ended.old.items ins.old.items }
    ensures place { F.place f.new ≡ F.place f.old }
    ensures frame { F.frame f.new ≡ F.frame f.old }
    ensures may { MayHear (setting (arc_value graph.now) (arc_value script.now) me) boxes.now ins.new.items }
    ensures hears { OnOk result (Hears (setting (arc_value graph.now) (arc_value script.now) me) (F.seen f.new) own.now ended.new.items ins.new.items) }
    ensures more { OnOk result (HearsMore (F.seen f.old) (F.seen f.new)) }
{
    let mut took = false;
    for q in 0..script.nodes() {
        match take_one(rt, f, me, graph, script, boxes, ins, own, ended, q) {
            Ok(one) => took = took || one,
            Err(error) => return Err(error),
        }
    }
    Ok(took)
}

/// Takes until nothing more comes of anybody.
pub(crate) fn take_all<R: Wait, F: Feeder>(
    rt: &R,
    f: &mut F,
    me: u8,
    graph: &Arc<Graph>,
    script: &Arc<Script>,
    boxes: &[Mailbox<Mail>],
    ins: &mut Vec<Inlet<Mail>>,
    own: &Own,
    ended: &mut Vec<bool>,
    signal: &Signal,
) -> Result<(), AllocError>
    requires may { MayHear (setting (arc_value graph.now) (arc_value script.now) me) boxes.now ins.old.items }
    requires frame { F.frame f.old ≡ frame_in (setting (arc_value graph.now) (arc_value script.now) me) }
    requires size { length own.now.totals.items ≡ length (arc_value graph.now) }
    requires hears { Hears (setting (arc_value graph.now) (arc_value script.now) me) (F.seen f.old) own.now ended.old.items ins.old.items }
    ensures place { F.place f.new ≡ F.place f.old }
    ensures frame { F.frame f.new ≡ F.frame f.old }
    ensures may { MayHear (setting (arc_value graph.now) (arc_value script.now) me) boxes.now ins.new.items }
    ensures hears { OnOk result (Hears (setting (arc_value graph.now) (arc_value script.now) me) (F.seen f.new) own.now ended.new.items ins.new.items) }
    ensures more { OnOk result (HearsMore (F.seen f.old) (F.seen f.new)) }
    ensures all { OnOk result (HaveEnded (setting (arc_value graph.now) (arc_value script.now) me) ended.new.items) }
    // where nothing more comes it takes nothing
    ensures still { HaveEnded (setting (arc_value graph.now) (arc_value script.now) me) ended.old.items → F.seen f.new ≡ F.seen f.old }
{
    let mut rest = Rest::new();
    for _ in rt.forever() {
        if have_all_ended(ended) {
            return Ok(());
        }
        match take_round(rt, f, me, graph, script, boxes, ins, own, ended) {
            Ok(true) => rest.end(),
            Ok(false) => rest.rest(rt, signal, u64::from(script.nodes()))?,
            Err(error) => return Err(error),
        }
    }
    unreachable!()
}
