//! What all updates of a script come to together, before any node runs.
//!
//! Each node is a replica of its own here, which does its own updates and hears of nobody; then one more takes the messages of all, and what follows from its sources is evaluated.
//! Rows are removed there as the script says, which changes no number of rows.

ghost use Rattle.std.specs.Prelude.{◌≡◌, ◌<◌, IfOk, OnOk};
ghost use Rattle.model_live.specs.Words.{AreLive};
ghost use Rattle.model_readings.specs.Lawful.{FitsAll};
ghost use Rattle.model_world.specs.Lawful.{IsWithinLimits};
ghost use Rattle.lasp_graph.specs.Library.{library_of};
ghost use Rattle.lasp_live.specs.Large.{HasStepped, IsAlone, IsLargeOf, IsSmallStep, IsTogether};
ghost use Rattle.lasp_live.specs.Prelude.{arc_value, IsLawful, too_large};

use crate::step::{Step, step_of};
use lasp_core::Core;
use lasp_fns::Library;
use lasp_graph::{EvalAll, Graph, States, eval_by_variable};
use lasp_node::message_of;
use lasp_script::Script;
use model_runs::sources_stay_within_the_format;
use std::alloc::{AllocError, Global};
use std::sync::Arc;

/// Does a step of its own to a replica, if that is an update: nothing else changes what it holds.
fn do_alone(core: &mut Core, step: &Option<Step<'_>>) -> Result<(), AllocError>
    requires { IsSmallStep core.old.frame.nodes step.now }
    ensures { OnOk result (HasStepped step.now core.old core.new) }
{
    match step {
        Some(Step::Update(x, op)) => match core.update(0, *x, op) {
            Ok(_) => {
                core.recall();
                Ok(())
            }
            Err(_) => Err(AllocError),
        },
        Some(Step::Send) => Ok(()),
        Some(Step::Print(_)) => Ok(()),
        Some(Step::Await(_, _)) => Ok(()),
        None => Ok(()),
    }
}

/// Node p behind all its own updates, having heard of nobody.
fn alone(alloc: Global, graph: &Arc<Graph>, script: &Script, p: u8) -> Result<Core, AllocError>
    requires lawful { IsLawful (arc_value graph.now) script.now }
    requires limits { IsWithinLimits script.now }
    requires live { AreLive script.now.commands }
    requires member { p < script.now.nodes }
    ensures { IfOk result (IsAlone (arc_value graph.now) script.now p) }
{
    let mut core = Core::new(alloc, Arc::try_clone(graph)?, p, script.nodes())?;
    for i in 0..script.len() {
        let step = step_of(alloc, script.at(i), p)?;
        do_alone(&mut core, &step)?;
    }
    Ok(core)
}

/// A replica that took the messages of all nodes.
fn together(alloc: Global, graph: &Arc<Graph>, script: &Script) -> Result<Core, AllocError>
    requires lawful { IsLawful (arc_value graph.now) script.now }
    requires limits { IsWithinLimits script.now }
    requires live { AreLive script.now.commands }
    ensures { IfOk result (IsTogether (arc_value graph.now) script.now) }
{
    let mut all = Core::new(alloc, Arc::try_clone(graph)?, 0, script.nodes())?;
    let mut p = script.nodes();
    while 0 < p {
        p -= 1;
        let other = alone(alloc, graph, script, p)?;
        let message = Arc::new(alloc, message_of(alloc, &other)?)?;
        match all.deliver(0, u32::from(p), &message) {
            Ok(_) => all.recall(),
            Err(_) => return Err(AllocError),
        }
    }
    Ok(all)
}

/// The variable that evaluation found too large, if it found one.
fn large_of(evaluated: Result<States, EvalAll>) -> Result<Option<u8>, AllocError>
    ensures { IfOk result (IsLargeOf evaluated) }
{
    match evaluated {
        Ok(_) => Ok(None),
        Err(EvalAll::TooLarge(x)) => Ok(Some(x)),
        Err(EvalAll::Memory) => Err(AllocError),
    }
}

/// The first variable that comes to have more than 65,536 rows when all updates of the script are known, if one does. No node that runs the script beside others comes to more.
pub fn first_too_large(
    alloc: Global,
    graph: &Arc<Graph>,
    script: &Script,
    lib: &Library,
) -> Result<Option<u8>, AllocError>
    requires lawful { IsLawful (arc_value graph.now) script.now }
    requires limits { IsWithinLimits script.now }
    requires live { AreLive script.now.commands }
    requires fits { FitsAll (library_of lib.now) (arc_value graph.now) }
    ensures { IfOk result (λ large. large ≡ too_large (arc_value graph.now) script.now) }
{
    let all = together(alloc, graph, script)?;
    all.recall();
    sources_stay_within_the_format();
    large_of(eval_by_variable(alloc, graph, lib, all.states()))
}
