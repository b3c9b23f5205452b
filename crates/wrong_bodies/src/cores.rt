//! Replica cores.

ghost use Rattle.std.specs.Prelude.{◌≡◌, IfOk, OnOk, IfSome, is_some};
ghost use Rattle.std.specs.Arc.{arc_value};
ghost use Rattle.model_readings.specs.Lawful.{FitsAll};
ghost use Rattle.model_journal.specs.Journal as journal;
ghost use Rattle.model_core.specs.Core.{is_met};
ghost use Rattle.lasp_fns.specs.Steps as counted;
ghost use Rattle.lasp_graph.specs.Library.{library_of};
ghost use Rattle.lasp_core.specs.Core.{IsOpen, IsSettled, IsStateOf};
ghost use Rattle.lasp_core.specs.Reads.{read_of};
ghost use Rattle.lasp_node.specs.Settling.{IsIdle};

use lasp_core::{Core, NotYet, ReadNo};
use lasp_drive::NodeStop;
use lasp_fns::StepLib;
use lasp_state::State;
use std::alloc::{AllocError, Global};
use std::sync::Arc;

/// `lasp_core::Core::poll_read`.
pub fn poll(core: &Core, read: &ReadNo) -> Result<Option<Arc<State>>, AllocError>
    requires { IsOpen core.now.frame core.now.entries (read_of read.now) }
    ensures met { IfOk result (λ found. is_some found ≡ is_met core.now.frame core.now.entries (read_of read.now)) }
    ensures state { IfOk result (λ found. IfSome found (λ s. IsStateOf core.now (read_of read.now).var (arc_value s))) }
{
    core.poll_read(read)
}

/// `lasp_core::Core::check_settled`.
pub fn check_settled(core: &Core) -> Result<u64, NotYet>
    ensures settled { OnOk result (IsSettled core.now) }
{
    core.check_settled()
}

/// `lasp_node::settle`.
pub fn settle(alloc: Global, core: &mut Core, lib: &mut StepLib) -> Result<(), NodeStop>
    requires idle { IsIdle core.old.busy }
    requires fits { FitsAll (library_of (counted.library_of lib.old)) (journal.graph core.old.frame core.old.entries) }
    ensures settled { OnOk result (IsSettled core.new) }
{
    lasp_node::settle(alloc, core, lib)
}
