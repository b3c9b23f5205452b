//! Settling a core: each derived variable is brought up to its inputs, the least first.

ghost use Rattle.std.specs.Prelude.{◌≡◌, ◌<◌, ◌≤◌, ◌+◌, ◌++◌, ◌∷◌, ◌↔◌, [], IsTrue, length, OnOk};
ghost use Rattle.lasp_node.specs.Prelude.{eval, first_large, FitsAll, Bind, entry, IsDerived, library_of, Settles, IsSettled, IsUnread, greatest_count, counted_up, IsIdle, AreCleanBelow, HasBoundIn, HasBound, rows_since, TellsFirst, IsUnclean, unread_rows};
ghost use Rattle.model_journal.specs.Journal as journal;
ghost use Rattle.lasp_fns.specs.Steps as counted;

use lasp_core::Core;
use lasp_drive::NodeStop;
use lasp_fns::StepLib;
use lasp_graph::EvalRefused;
use lasp_replica::Unread;
use std::alloc::Global;

/// Takes the rows that changed in the inputs of a variable in.
fn take_in(core: &mut Core, var: u8, unread: &Unread, lib: &mut StepLib) -> Result<(), NodeStop>
    requires derived { IsDerived (journal.graph core.old.frame core.old.entries) var }
    requires unread { IsUnread core.old.frame core.old.entries var unread.now }
    requires idle { IsIdle core.old.busy }
    requires below { AreCleanBelow var core.old }
    requires fits { FitsAll (library_of (counted.library_of lib.old)) (journal.graph core.old.frame core.old.entries) }
    ensures bound { HasBoundIn var (var + 1) core.old core.new }
    ensures entry { OnOk result (core.new.entries ≡ core.old.entries ++ entry 0 (Bind var (length core.old.entries)) ∷ []) }
    ensures clean { OnOk result (AreCleanBelow (var + 1) core.new) }
    ensures large { TellsFirst (first_large 0 (eval (journal.graph core.old.frame core.old.entries) (journal.sources core.old.frame core.old.entries))) result }
    ensures owed { core.new.owed ≡ core.old.owed }
    ensures library { counted.library_of lib.new ≡ counted.library_of lib.old }
    ensures ticks { counted.ticks_of lib.new ≤ counted.ticks_of lib.old + length unread.now.first }
{
    core.recall();
    match core.settle_var(0, var, unread, lib) {
        Ok(_) => {
            core.recall();
            Ok(())
        }
        Err(EvalRefused::TooManyRows) => Err(NodeStop::TooLarge(var)),
        Err(EvalRefused::Memory) => Err(NodeStop::Memory),
    }
}

/// Brings the least variable that lacks something up to its inputs.
fn bring_up(core: &mut Core, var: u8, lib: &mut StepLib) -> Result<(), NodeStop>
    requires unclean { IsUnclean core.old.frame core.old.entries var }
    requires idle { IsIdle core.old.busy }
    requires below { AreCleanBelow var core.old }
    requires fits { FitsAll (library_of (counted.library_of lib.old)) (journal.graph core.old.frame core.old.entries) }
    ensures bound { HasBoundIn var (var + 1) core.old core.new }
    ensures entry { OnOk result (core.new.entries ≡ core.old.entries ++ entry 0 (Bind var (length core.old.entries)) ∷ []) }
    ensures clean { OnOk result (AreCleanBelow (var + 1) core.new) }
    ensures large { TellsFirst (first_large 0 (eval (journal.graph core.old.frame core.old.entries) (journal.sources core.old.frame core.old.entries))) result }
    ensures owed { OnOk result (core.new.owed ≡ counted_up core.old.owed (unread_rows core.old.frame core.old.entries var)) }
    ensures rises { core.old.owed ≤ core.new.owed }
    ensures library { counted.library_of lib.new ≡ counted.library_of lib.old }
    ensures ticks { OnOk result (counted.ticks_of lib.new ≤ counted.ticks_of lib.old + unread_rows core.old.frame core.old.entries var) }
    ensures within { core.new.owed < greatest_count → counted.ticks_of lib.new + core.old.owed ≤ counted.ticks_of lib.old + core.new.owed }
{
    core.recall();
    core.owed();
    let unread = core.unread(var)?;
    take_in(core, var, &unread, lib)
}

/// Whether a variable is derived and hasn't taken in its inputs as they are.
fn is_unclean(core: &Core, var: u8) -> bool
    requires { var < length (journal.graph core.now.frame core.now.entries) }
    ensures { IsTrue result ↔ IsUnclean core.now.frame core.now.entries var }
{
    if core.graph().at(u64::from(var)).kind.is_source() {
        return false;
    }
    !core.is_clean(var)
}

/// Brings every derived variable to what its process gives on the present sources, the least first and each once at most; one that is clean at its turn is passed over, and a core in which all are clean is left as it is. It calls the library's functions at most as often as rows changed in the inputs of the variables that it evaluates, since each was last bound.
pub fn settle(_alloc: Global, core: &mut Core, lib: &mut StepLib) -> Result<(), NodeStop>
    requires idle { IsIdle core.old.busy }
    requires fits { FitsAll (library_of (counted.library_of lib.old)) (journal.graph core.old.frame core.old.entries) }
    ensures bound { HasBound core.old core.new }
    ensures settled { OnOk result (IsSettled core.new) }
    ensures shown { OnOk result (journal.vals core.new.frame core.new.entries ≡ eval (journal.graph core.old.frame core.old.entries) (journal.sources core.old.frame core.old.entries)) }
    ensures done { Settles (first_large 0 (eval (journal.graph core.old.frame core.old.entries) (journal.sources core.old.frame core.old.entries))) result }
    ensures left { IsSettled core.old → core.new ≡ core.old }
    ensures owed { OnOk result (core.new.owed ≡ counted_up core.old.owed (rows_since core.old core.new)) }
    ensures library { counted.library_of lib.new ≡ counted.library_of lib.old }
    ensures ticks { OnOk result (counted.ticks_of lib.new ≤ counted.ticks_of lib.old + rows_since core.old core.new) }
    ensures within { core.new.owed < greatest_count → counted.ticks_of lib.new + core.old.owed ≤ counted.ticks_of lib.old + core.new.owed }
    ensures unticked { IsSettled core.old → counted.ticks_of lib.new ≡ counted.ticks_of lib.old }
{
    core.recall();
    core.owed();
    for x in 0..core.graph().len() {
        let var = x as u8;
        if is_unclean(core, var) {
            let done = bring_up(core, var, lib);
            core.recall();
            done?;
        }
    }
    Ok(())
}
