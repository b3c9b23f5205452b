//! The updates of a site, and its state after them.

ghost use Rattle.std.specs.Prelude.{◌≡◌, ◌<◌, ◌≤◌, ◌+◌, nat_le, Some, IsTrue, is_some, IfOk, length};
ghost use Rattle.model_states.specs.Counts.{count_at};
ghost use Rattle.model_graph.specs.Graph.{name_at};
ghost use Rattle.model_graph.specs.Spelling.{spelled};
ghost use Rattle.model_readings.specs.Lawful.{IsGraph, FitsAll};
ghost use Rattle.model_wire.specs.Lawful.{IsSpellable};
ghost use Rattle.model_world.specs.Lawful.{opening_stage, MayBeDone, AreLawful};
ghost use Rattle.model_world.specs.World.{message_at};
ghost use Rattle.model_program.specs.declared.refusal.Refusal.TheVariants as refusal;
ghost use Rattle.model_site.specs.Follows.{Gives};
ghost use Rattle.model_site.specs.Program.{written_state};
ghost use Rattle.model_site.specs.Site.{own, AreOwn, done_by, update_done, updates_done};
ghost use Rattle.model_site.specs.declared.site_refusal.SiteRefusal.TheVariants.{Shared};
ghost use Rattle.lasp_graph.specs.Library.{library_of};
ghost use Rattle.lasp_script.specs.Command.{command_of};
ghost use Rattle.lasp_state.specs.State.{op_of};
ghost use Rattle.lasp_value.specs.Value.{val_of};
ghost use Rattle.lasp_call.specs.Message.{peer_by};
ghost use Rattle.lasp_site.specs.Failure.{IsRefusal};
ghost use Rattle.lasp_site.specs.Site.{IsSiteNode, IsAsked, MayDo, IsOperationOf};

use crate::open::shared_failure;
use lasp_drive::{Node, NodeStop};
use lasp_fns::Library;
use lasp_graph::Graph;
use lasp_script::{Command, Script};
use lasp_state::Op;
use lasp_value::Value;
use lasp_wire::{encode, recall_value};
use model_site::{SiteFailure, SiteRefusal};
use std::alloc::{AllocError, Global};

/// The most updates of a replica.
const UPDATE_LIMIT: u64 = 100_000;

/// The refusal of a command at which a variable is too large.
fn too_large(graph: &Graph, number: u32, me: u8, var: u8) -> SiteFailure
    requires { var < length graph.now }
    ensures { IsRefusal (Shared (refusal.TooLarge number me (name_at graph.now var))) result }
{
    shared_failure(lasp_call::too_large(graph, number, me, var))
}

/// Whether the node's replica has made as many updates as it may.
#[tactic(auto, using(crate::proofs::NodeLaws::asked))]
fn is_full<N: Node>(alloc: Global, graph: &Graph, me: u8, node: &mut N) -> Result<bool, AllocError>
    requires { IsSiteNode me graph.now (N.view node.old) }
    ensures full { IfOk result (λ full. full ≡ nat_le 100000 (count_at (N.view node.old).peer.counts me)) }
    ensures asked { IsAsked me graph.now (N.view node.old) (N.view node.new) }
{
    let counts = node.counts(alloc)?;
    Ok(counts.as_slice()[me as usize] >= UPDATE_LIMIT)
}

/// The node after an update by command number `number`, for which it has room.
#[tactic(auto, using(crate::proofs::UpdateLaws::updates))]
fn make<N: Node>(
    alloc: Global,
    graph: &Graph,
    me: u8,
    number: u32,
    mut node: N,
    var: u8,
    op: &Op,
) -> Result<N, SiteFailure>
    requires node { IsSiteNode me graph.now (N.view node) }
    requires may { MayDo (N.view node).among graph.now me var op.now }
    requires room { count_at (N.view node).peer.counts me < 100000 }
    ensures exact { Gives (peer_by N.view) (update_done me graph.now number (N.view node).peer (var, op_of op.now)) result }
    ensures node { IfOk result (λ n. IsSiteNode me graph.now (N.view n)) }
    ensures among { IfOk result (λ n. (N.view n).among ≡ (N.view node).among) }
{
    match node.update(alloc, var, op, false) {
        Ok(()) => Ok(node),
        Err(NodeStop::TooLarge(_)) => Err(too_large(graph, number, me, var)),
        Err(NodeStop::Memory) => Err(SiteFailure::Memory),
    }
}

/// The node after an update by command number `number`.
#[tactic(auto, using(crate::proofs::UpdateLaws::updates))]
fn update<N: Node>(
    alloc: Global,
    graph: &Graph,
    me: u8,
    number: u32,
    mut node: N,
    var: u8,
    op: &Op,
) -> Result<N, SiteFailure>
    requires node { IsSiteNode me graph.now (N.view node) }
    requires may { MayDo (N.view node).among graph.now me var op.now }
    ensures exact { Gives (peer_by N.view) (update_done me graph.now number (N.view node).peer (var, op_of op.now)) result }
    ensures node { IfOk result (λ n. IsSiteNode me graph.now (N.view n)) }
    ensures among { IfOk result (λ n. (N.view n).among ≡ (N.view node).among) }
{
    match is_full(alloc, graph, me, &mut node) {
        Ok(true) => Err(SiteFailure::Refused(SiteRefusal::UpdatesFull(number, me))),
        Ok(false) => make(alloc, graph, me, number, node, var, op),
        Err(_) => Err(SiteFailure::Memory),
    }
}

/// A copy of a value, of which it is recalled that it has a spelling.
fn copied(alloc: Global, value: &Value) -> Result<Value, AllocError>
    ensures same { IfOk result (λ v. val_of v ≡ val_of value.now) }
    ensures spelled { IfOk result (λ v. IsSpellable (val_of v)) }
{
    recall_value(value);
    value.try_clone(alloc)
}

/// The variable and the operation of a command that updates a source; none of any other.
#[tactic(auto, using(crate::proofs::UpdateLaws::operations))]
fn operation_of(alloc: Global, command: &Command) -> Result<Option<(u8, Op)>, AllocError>
    ensures { IfOk result (IsOperationOf (command_of command.now)) }
{
    match command {
        Command::Add(_, var, value) => Ok(Some((*var, Op::Add(copied(alloc, value)?)))),
        Command::Remove(_, var, value) => Ok(Some((*var, Op::Remove(copied(alloc, value)?)))),
        Command::Insert(_, var, value) => Ok(Some((*var, Op::Insert(copied(alloc, value)?)))),
        Command::Inc(_, var, by) => Ok(Some((*var, Op::Inc(*by)))),
        Command::Max(_, var, number) => Ok(Some((*var, Op::Max(*number)))),
        _ => Ok(None),
    }
}

/// The node after command number `number`, which is an update of it.
fn do_command<N: Node>(
    alloc: Global,
    graph: &Graph,
    me: u8,
    number: u32,
    node: N,
    command: &Command,
) -> Result<N, SiteFailure>
    requires node { IsSiteNode me graph.now (N.view node) }
    requires own { IsTrue (is_some (own me (command_of command.now))) }
    requires may { MayBeDone (N.view node).among (opening_stage graph.now) (command_of command.now) }
    ensures exact { Gives (peer_by N.view) (done_by me graph.now number (N.view node).peer (own me (command_of command.now))) result }
    ensures node { IfOk result (λ n. IsSiteNode me graph.now (N.view n)) }
    ensures among { IfOk result (λ n. (N.view n).among ≡ (N.view node).among) }
{
    match operation_of(alloc, command) {
        Ok(Some((var, op))) => update(alloc, graph, me, number, node, var, &op),
        Ok(None) => Ok(node),
        Err(_) => Err(SiteFailure::Memory),
    }
}

/// The node after all commands of a script, which are updates of it.
pub(crate) fn do_commands<N: Node>(
    alloc: Global,
    graph: &Graph,
    me: u8,
    first: N,
    script: &Script,
) -> Result<N, SiteFailure>
    requires node { IsSiteNode me graph.now (N.view first) }
    requires own { AreOwn me script.now.commands }
    requires lawful { AreLawful (N.view first).among (opening_stage graph.now) script.now.commands }
    requires few { length script.now.commands < 100000 }
    ensures exact { Gives (peer_by N.view) (updates_done me graph.now 1 (N.view first).peer script.now.commands) result }
    ensures node { IfOk result (λ n. IsSiteNode me graph.now (N.view n)) }
{
    let mut node = first;
    let mut number: u32 = 1;
    for i in 0..script.len() {
        match do_command(alloc, graph, me, number, node, script.at(i)) {
            Ok(next) => node = next,
            Err(failure) => return Err(failure),
        }
        number += 1;
    }
    Ok(node)
}

/// The bytes of what a settled node would send.
fn state_of<N: Node>(
    alloc: Global,
    me: u8,
    graph: &Graph,
    node: &mut N,
) -> Result<Vec<u8>, AllocError>
    requires node { IsSiteNode me graph.now (N.view node.old) }
    requires graph { IsGraph graph.now }
    ensures { IfOk result (λ bytes. bytes.items ≡ spelled (message_at graph.now (N.view node.old).peer)) }
{
    let message = node.message(alloc)?;
    encode(alloc, &message)
}

/// The state of a node after an update by all commands, settled under the number behind the last of them.
pub(crate) fn settled_state<N: Node>(
    alloc: Global,
    graph: &Graph,
    me: u8,
    number: u32,
    mut node: N,
    lib: &Library,
) -> Result<Vec<u8>, SiteFailure>
    requires node { IsSiteNode me graph.now (N.view node) }
    requires graph { IsGraph graph.now }
    requires fits { FitsAll (library_of lib.now) graph.now }
    ensures { Gives (λ bytes. bytes.items) (written_state me graph.now number (N.view node).peer) result }
{
    match node.settle(alloc, lib) {
        Ok(()) => match state_of(alloc, me, graph, &mut node) {
            Ok(bytes) => Ok(bytes),
            Err(_) => Err(SiteFailure::Memory),
        },
        Err(NodeStop::TooLarge(var)) => Err(too_large(graph, number, me, var)),
        Err(NodeStop::Memory) => Err(SiteFailure::Memory),
    }
}
