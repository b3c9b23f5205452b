//! The loop of a feeder: one node's commands, from the first to its end.

ghost use Rattle.std.specs.Prelude.{◌≡◌, ◌<◌, ◌==◌, [], ℕ, true, IfOk, length, slice_index_or};
ghost use Rattle.model_runs.specs.Calls.{unbound};
ghost use Rattle.lasp_live.specs.Ends.{AreUnused};
ghost use Rattle.lasp_live.specs.Did.{HasPlayed};
ghost use Rattle.lasp_live.specs.Fed.{IsFresh};
ghost use Rattle.lasp_live.specs.Prelude.{arc_value, AreEnds, HasFed, IsAt, frame_in};
ghost use Rattle.lasp_live.specs.Steady.{MayFeed, setting};

use crate::commands::do_command;
use crate::diary::Diary;
use crate::feeder::Feeder;
use crate::log::Log;
use crate::mail::Mail;
use crate::own::Own;
use crate::post::post;
use crate::signal::Signal;
use crate::takes::take_all;
use lasp_graph::Graph;
use lasp_mail::{Inlet, Mailbox, Outlet};
use lasp_script::Script;
use std::alloc::{AllocError, Global};
use std::sync::{Arc, Wait};

/// Of so many nodes, that more is to come of each but this one.
fn others_to_come(alloc: Global, nodes: u8, me: u8) -> Result<Vec<bool>, AllocError>
    requires { me < nodes }
    ensures { IfOk result (λ ended. (length ended.items ≡ nodes) × ((q : ℕ) → q < nodes → slice_index_or ended.items q true ≡ (q == me))) }
{
    let mut ended = Vec::new(alloc);
    for q in 0..nodes {
        ended.push(q == me)?;
    }
    Ok(ended)
}

/// A log in which nothing stands.
fn fresh_log(alloc: Global, graph: &Graph, nodes: u8, me: u8) -> Result<Log, AllocError>
    requires { me < nodes }
    ensures { IfOk result (IsFresh graph.now nodes me) }
{
    let own = Own::new(alloc, graph.len())?;
    Ok(Log {
        diary: Diary::new(alloc),
        own,
        sent: 0,
        ended: others_to_come(alloc, nodes, me)?,
    })
}

/// Does the commands of this node, in order, and tells the number of the first at which it failed, if it did: no later one is done.
fn play<R: Wait, F: Feeder>(
    rt: &R,
    alloc: Global,
    f: &mut F,
    me: u8,
    graph: &Arc<Graph>,
    script: &Arc<Script>,
    boxes: &[Mailbox<Mail>],
    outs: &mut Vec<Outlet<Mail>>,
    ins: &mut Vec<Inlet<Mail>>,
    log: &mut Log,
    signal: &Signal,
) -> Result<Option<u32>, AllocError>
    requires may { MayFeed (setting (arc_value graph.now) (arc_value script.now) me) boxes.now outs.old.items ins.old.items }
    requires frame { F.frame f.old ≡ frame_in (setting (arc_value graph.now) (arc_value script.now) me) }
    requires at { IsAt (setting (arc_value graph.now) (arc_value script.now) me) 0 (F.seen f.old) log.old outs.old.items ins.old.items }
    ensures place { F.place f.new ≡ F.place f.old }
    ensures frame { F.frame f.new ≡ F.frame f.old }
    ensures may { MayFeed (setting (arc_value graph.now) (arc_value script.now) me) boxes.now outs.new.items ins.new.items }
    ensures played { HasPlayed (setting (arc_value graph.now) (arc_value script.now) me) result (F.seen f.new) log.new outs.new.items ins.new.items }
{
    for i in 0..script.len() {
        if signal.is_stopped() {
            return Err(AllocError);
        }
        let passed = do_command(
            rt, alloc, f, me, graph, script, boxes, outs, ins, log, signal, i,
        )?;
        if !passed {
            return Ok(Some(i as u32 + 1));
        }
    }
    Ok(None)
}

/// Does the commands of this node, says its end to all others, and takes what comes until all others said theirs.
fn feed<R: Wait, F: Feeder>(
    rt: &R,
    alloc: Global,
    f: &mut F,
    me: u8,
    graph: &Arc<Graph>,
    script: &Arc<Script>,
    boxes: &[Mailbox<Mail>],
    outs: &mut Vec<Outlet<Mail>>,
    ins: &mut Vec<Inlet<Mail>>,
    signal: &Signal,
) -> Result<Diary, AllocError>
    requires may { MayFeed (setting (arc_value graph.now) (arc_value script.now) me) boxes.now outs.old.items ins.old.items }
    requires frame { F.frame f.old ≡ frame_in (setting (arc_value graph.now) (arc_value script.now) me) }
    requires fresh { unbound (F.seen f.old) ≡ [] }
    requires unused { AreUnused outs.old.items ins.old.items }
    ensures place { F.place f.new ≡ F.place f.old }
    ensures frame { F.frame f.new ≡ F.frame f.old }
    ensures may { MayFeed (setting (arc_value graph.now) (arc_value script.now) me) boxes.now outs.new.items ins.new.items }
    ensures fed { IfOk result (λ diary. HasFed (setting (arc_value graph.now) (arc_value script.now) me) (F.seen f.new) diary outs.new.items ins.new.items) }
{
    f.recall();
    let mut log = fresh_log(alloc, graph, script.nodes(), me)?;
    match play(
        rt, alloc, f, me, graph, script, boxes, outs, ins, &mut log, signal,
    ) {
        Ok(failed) => {
            post(rt, me, graph, script, boxes, outs, log.sent, &None)?;
            let Log {
                mut diary,
                own,
                mut ended,
                ..
            } = log;
            take_all(
                rt, f, me, graph, script, boxes, ins, &own, &mut ended, signal,
            )?;
            diary.failed = failed;
            Ok(diary)
        }
        Err(error) => Err(error),
    }
}

/// Does the commands of node `me`, to the end or to the first threshold that it stays below though every other node has ended, and tells
/// what it noted. Box `q * nodes + p` is the mailbox from node q to node p, of which the node has its ends: `outs[p]` and `ins[q]`. What
/// it sends goes to every other node, and it takes what came where it waits for a threshold, and at its end.
///
/// It may wait for the other nodes, whose feeders have to run beside it, each on a thread of its own: for those that wait for each other it waits for ever.
/// Where memory is wanting, it tells all others by the signal to stop; so it does where one of them has not begun for some seconds.
pub fn feed_node<R: Wait, F: Feeder>(
    rt: &R,
    alloc: Global,
    f: &mut F,
    me: u8,
    graph: &Arc<Graph>,
    script: &Arc<Script>,
    boxes: &[Mailbox<Mail>],
    outs: &mut Vec<Outlet<Mail>>,
    ins: &mut Vec<Inlet<Mail>>,
    signal: &Signal,
) -> Result<Diary, AllocError>
    requires may { MayFeed (setting (arc_value graph.now) (arc_value script.now) me) boxes.now outs.old.items ins.old.items }
    requires frame { F.frame f.old ≡ frame_in (setting (arc_value graph.now) (arc_value script.now) me) }
    requires fresh { unbound (F.seen f.old) ≡ [] }
    requires unused { AreUnused outs.old.items ins.old.items }
    // on every return it feeds the same replica, and the ends are of the mailboxes that they were of
    ensures place { F.place f.new ≡ F.place f.old }
    ensures frame { F.frame f.new ≡ F.frame f.old }
    ensures ends { AreEnds (arc_value graph.now, arc_value script.now) (arc_value script.now).nodes me boxes.now outs.new.items ins.new.items }
    // journal and diary are a story of the node; all that it sent, and then its end, lies in the mailbox to each other node, and all that it took stands in the journal
    ensures fed { IfOk result (λ diary. HasFed (setting (arc_value graph.now) (arc_value script.now) me) (F.seen f.new) diary outs.new.items ins.new.items) }
{
    signal.begin();
    let fed = feed(rt, alloc, f, me, graph, script, boxes, outs, ins, signal);
    if fed.is_err() {
        signal.stop();
    }
    fed
}
