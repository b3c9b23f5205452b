//! The commands of one node.

ghost use Rattle.std.specs.Prelude.{◌≡◌, ◌+◌, ◌<◌, [], IfOk, IsTrue, OnOk, length};
ghost use Rattle.model_graph.specs.Graph.{kind_at};
ghost use Rattle.model_graph.specs.Lawful.{shape_of};
ghost use Rattle.model_live.specs.Words.{IsLiveUntil};
ghost use Rattle.model_states.specs.Threshold.{suits};
ghost use Rattle.model_live.specs.Steps.{Does, Updates, Sends, Prints, Waits};
ghost use Rattle.model_world.specs.World as world;
ghost use Rattle.lasp_live.specs.Did.{HasAsked, HasDone, HasPassed, HasSettled, HasWaited, IsStepAt};
ghost use Rattle.model_journal.specs.Journal.{declared};
ghost use Rattle.lasp_live.specs.Prelude.{arc_value, AreMadeByTheirCallers, AreSmall, IsAt, IsLegal, frame_in, op_of, threshold_of, until_of};
ghost use Rattle.lasp_live.specs.Steady.{MayFeed, setting};

use crate::diary::Noted;
use crate::feeder::Feeder;
use crate::log::{Log, have_all_ended};
use crate::mail::Mail;
use crate::post::post;
use crate::rest::Rest;
use crate::signal::Signal;
use crate::step::{Step, step_of};
use crate::takes::take_round;
use lasp_core::Settle;
use lasp_graph::Graph;
use lasp_mail::{Inlet, Mailbox, Outlet};
use lasp_script::{Script, Until};
use lasp_state::{Op, Threshold};
use lasp_value::Values;
use std::alloc::{AllocError, Global};
use std::sync::{Arc, Wait};

/// Updates a source, as command i does.
fn update<F: Feeder>(
    f: &mut F,
    me: u8,
    graph: &Arc<Graph>,
    script: &Arc<Script>,
    boxes: &[Mailbox<Mail>],
    outs: &[Outlet<Mail>],
    ins: &[Inlet<Mail>],
    log: &mut Log,
    i: u64,
    x: u8,
    op: &Op,
) -> Result<(), AllocError>
    requires may { MayFeed (setting (arc_value graph.now) (arc_value script.now) me) boxes.now outs.now ins.now }
    requires frame { F.frame f.old ≡ frame_in (setting (arc_value graph.now) (arc_value script.now) me) }
    requires step { IsStepAt (arc_value script.now) me i (Does (Updates x (op_of op.now))) }
    requires at { IsAt (setting (arc_value graph.now) (arc_value script.now) me) i (F.seen f.old) log.old outs.now ins.now }
    ensures place { F.place f.new ≡ F.place f.old }
    ensures frame { F.frame f.new ≡ F.frame f.old }
    ensures done { HasDone (setting (arc_value graph.now) (arc_value script.now) me) i result (F.seen f.new) log.new outs.now ins.now }
{
    match f.update(x, op) {
        Ok(_) => {
            f.recall();
            log.own.count(x, op);
            Ok(())
        }
        Err(_) => Err(AllocError),
    }
}

/// Sends what the node holds to all others, as command i does, and notes it.
fn send<R: Wait, F: Feeder>(
    rt: &R,
    alloc: Global,
    f: &mut F,
    me: u8,
    graph: &Arc<Graph>,
    script: &Arc<Script>,
    boxes: &[Mailbox<Mail>],
    outs: &mut Vec<Outlet<Mail>>,
    ins: &[Inlet<Mail>],
    log: &mut Log,
    sent: u64,
    i: u64,
) -> Result<(), AllocError>
    requires may { MayFeed (setting (arc_value graph.now) (arc_value script.now) me) boxes.now outs.old.items ins.now }
    requires frame { F.frame f.old ≡ frame_in (setting (arc_value graph.now) (arc_value script.now) me) }
    requires step { IsStepAt (arc_value script.now) me i (Does Sends) }
    requires at { IsAt (setting (arc_value graph.now) (arc_value script.now) me) i (F.seen f.old) log.old outs.old.items ins.now }
    requires sent { sent ≡ log.old.sent }
    ensures place { F.place f.new ≡ F.place f.old }
    ensures frame { F.frame f.new ≡ F.frame f.old }
    ensures may { MayFeed (setting (arc_value graph.now) (arc_value script.now) me) boxes.now outs.new.items ins.now }
    ensures done { HasDone (setting (arc_value graph.now) (arc_value script.now) me) i result (F.seen f.new) log.new outs.new.items ins.now }
{
    let message = Arc::new(alloc, f.message()?)?;
    let place = f.length();
    f.recall();
    let kept = Arc::try_clone(&message)?;
    post(rt, me, graph, script, boxes, outs, sent, &Some(message))?;
    log.sent = sent + 1;
    log.diary.note(place, Noted::Send(kept))
}

/// Prints a variable, as command i does: the node is settled, and what the variable shows is noted.
fn print<F: Feeder>(
    f: &mut F,
    me: u8,
    graph: &Arc<Graph>,
    script: &Arc<Script>,
    boxes: &[Mailbox<Mail>],
    outs: &[Outlet<Mail>],
    ins: &[Inlet<Mail>],
    log: &mut Log,
    i: u64,
    x: u8,
) -> Result<(), AllocError>
    requires may { MayFeed (setting (arc_value graph.now) (arc_value script.now) me) boxes.now outs.now ins.now }
    requires frame { F.frame f.old ≡ frame_in (setting (arc_value graph.now) (arc_value script.now) me) }
    requires var { x < length (arc_value graph.now) }
    requires step { IsStepAt (arc_value script.now) me i (Does (Prints x)) }
    requires at { IsAt (setting (arc_value graph.now) (arc_value script.now) me) i (F.seen f.old) log.old outs.now ins.now }
    ensures place { F.place f.new ≡ F.place f.old }
    ensures frame { F.frame f.new ≡ F.frame f.old }
    ensures done { HasDone (setting (arc_value graph.now) (arc_value script.now) me) i result (F.seen f.new) log.new outs.now ins.now }
{
    settle(f)?;
    let state = f.look(x)?;
    let place = f.length();
    f.recall();
    log.diary.note(place, Noted::Print(x, state))
}

/// Settles the node, of which no variable comes to be too large: only memory may be wanting.
fn settle<F: Feeder>(f: &mut F) -> Result<(), AllocError>
    requires small { AreSmall (F.frame f.old) (F.seen f.old) }
    ensures place { F.place f.new ≡ F.place f.old }
    ensures frame { F.frame f.new ≡ F.frame f.old }
    ensures settled { HasSettled (F.frame f.old) (F.seen f.old) result (F.seen f.new) }
{
    match f.settle_all() {
        Ok(_) => Ok(()),
        Err(Settle::Memory) => Err(AllocError),
        Err(Settle::TooLarge(_)) => {
            f.recall();
            unreachable!()
        }
    }
}

/// Equal values.
fn copy_values(alloc: Global, values: &Values) -> Result<Values, AllocError>
    ensures { IfOk result (λ copy. copy ≡ values.now) }
{
    let mut copy = Values::new(alloc);
    for i in 0..values.len() {
        copy.push(values.at(i).try_clone(alloc)?)?;
    }
    Ok(copy)
}

/// The threshold that a command asks for, which is of no mark.
fn threshold(alloc: Global, until: &Until) -> Result<Threshold, AllocError>
    requires { IsLiveUntil (until_of until.now) }
    ensures { IfOk result (λ t. threshold_of t ≡ world.threshold_of [] (until_of until.now)) }
{
    match until {
        Until::Count(count) => Ok(Threshold::Count(*count)),
        Until::Added(values) => Ok(Threshold::Added(copy_values(alloc, values)?)),
        Until::Removed(values) => Ok(Threshold::Removed(copy_values(alloc, values)?)),
        Until::AtLeast(_) | Until::Above(_) => unreachable!(),
    }
}

/// Whether a variable is at the threshold, as the node is settled.
fn is_at<F: Feeder>(f: &mut F, x: u8, threshold: &Threshold) -> Result<bool, AllocError>
    requires small { AreSmall (F.frame f.old) (F.seen f.old) }
    requires undeclared { declared (F.seen f.old) ≡ [] }
    requires var { x < length (F.frame f.old).opening }
    requires suits { IsTrue (suits (threshold_of threshold.now) (shape_of (F.frame f.old).nodes (kind_at (F.frame f.old).opening x))) }
    ensures place { F.place f.new ≡ F.place f.old }
    ensures frame { F.frame f.new ≡ F.frame f.old }
    ensures met { HasAsked (F.frame f.old) (threshold_of threshold.now) x (F.seen f.old) result (F.seen f.new) }
    ensures legal { OnOk result (IsLegal (F.frame f.new) (F.seen f.new)) }
    ensures made { OnOk result (AreMadeByTheirCallers (F.seen f.new)) }
{
    settle(f)?;
    let state = f.look(x)?;
    f.recall();
    Ok(threshold.meets(&state))
}

/// Waits until a variable is at a threshold, as command i does: as long as it isn't, the node takes what comes. False where nothing more comes of anybody and it still isn't.
fn wait<R: Wait, F: Feeder>(
    rt: &R,
    f: &mut F,
    me: u8,
    graph: &Arc<Graph>,
    script: &Arc<Script>,
    boxes: &[Mailbox<Mail>],
    outs: &[Outlet<Mail>],
    ins: &mut Vec<Inlet<Mail>>,
    log: &mut Log,
    signal: &Signal,
    i: u64,
    x: u8,
    until: &Until,
    threshold: &Threshold,
) -> Result<bool, AllocError>
    requires may { MayFeed (setting (arc_value graph.now) (arc_value script.now) me) boxes.now outs.now ins.old.items }
    requires frame { F.frame f.old ≡ frame_in (setting (arc_value graph.now) (arc_value script.now) me) }
    requires var { x < length (arc_value graph.now) }
    requires threshold { threshold_of threshold.now ≡ world.threshold_of [] (until_of until.now) }
    requires suits { IsTrue (suits (threshold_of threshold.now) (shape_of (arc_value script.now).nodes (kind_at (arc_value graph.now) x))) }
    requires step { IsStepAt (arc_value script.now) me i (Waits (i + 1) x (until_of until.now)) }
    requires at { IsAt (setting (arc_value graph.now) (arc_value script.now) me) i (F.seen f.old) log.old outs.now ins.old.items }
    ensures place { F.place f.new ≡ F.place f.old }
    ensures frame { F.frame f.new ≡ F.frame f.old }
    ensures may { MayFeed (setting (arc_value graph.now) (arc_value script.now) me) boxes.now outs.now ins.new.items }
    ensures waited { HasWaited (setting (arc_value graph.now) (arc_value script.now) me) i x (until_of until.now) result (F.seen f.new) log.new outs.now ins.new.items }
{
    let mut rest = Rest::new();
    let mut is_new = true;
    for _ in rt.forever() {
        if is_new {
            if is_at(f, x, threshold)? {
                return Ok(true);
            }
            if have_all_ended(&log.ended) {
                return Ok(false);
            }
            is_new = false;
        }
        match take_round(
            rt,
            f,
            me,
            graph,
            script,
            boxes,
            ins,
            &log.own,
            &mut log.ended,
        ) {
            Ok(true) => {
                is_new = true;
                rest.end();
            }
            Ok(false) => rest.rest(rt, signal, u64::from(script.nodes()))?,
            Err(error) => return Err(error),
        }
    }
    unreachable!()
}

/// Does command i, where it is one of this node. False where the node failed at it.
pub(crate) fn do_command<R: Wait, F: Feeder>(
    rt: &R,
    alloc: Global,
    f: &mut F,
    me: u8,
    graph: &Arc<Graph>,
    script: &Arc<Script>,
    boxes: &[Mailbox<Mail>],
    outs: &mut Vec<Outlet<Mail>>,
    ins: &mut Vec<Inlet<Mail>>,
    log: &mut Log,
    signal: &Signal,
    i: u64,
) -> Result<bool, AllocError>
    requires may { MayFeed (setting (arc_value graph.now) (arc_value script.now) me) boxes.now outs.old.items ins.old.items }
    requires frame { F.frame f.old ≡ frame_in (setting (arc_value graph.now) (arc_value script.now) me) }
    requires command { i < length (arc_value script.now).commands }
    requires at { IsAt (setting (arc_value graph.now) (arc_value script.now) me) i (F.seen f.old) log.old outs.old.items ins.old.items }
    ensures place { F.place f.new ≡ F.place f.old }
    ensures frame { F.frame f.new ≡ F.frame f.old }
    ensures may { MayFeed (setting (arc_value graph.now) (arc_value script.now) me) boxes.now outs.new.items ins.new.items }
    ensures passed { HasPassed (setting (arc_value graph.now) (arc_value script.now) me) i result (F.seen f.new) log.new outs.new.items ins.new.items }
{
    match step_of(alloc, script.at(i), me)? {
        Some(Step::Update(x, op)) => {
            update(f, me, graph, script, boxes, outs, ins, log, i, x, &op)?;
            Ok(true)
        }
        Some(Step::Send) => {
            let sent = log.sent;
            send(
                rt, alloc, f, me, graph, script, boxes, outs, ins, log, sent, i,
            )?;
            Ok(true)
        }
        Some(Step::Print(x)) => {
            print(f, me, graph, script, boxes, outs, ins, log, i, x)?;
            Ok(true)
        }
        Some(Step::Await(x, until)) => {
            let threshold = threshold(alloc, until)?;
            wait(
                rt, f, me, graph, script, boxes, outs, ins, log, signal, i, x, until, &threshold,
            )
        }
        None => Ok(true),
    }
}
