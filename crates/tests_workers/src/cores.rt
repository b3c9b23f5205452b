//! Calls of cores, each with what it asks for.

ghost use Rattle.std.specs.Prelude.{IfOk};
ghost use Rattle.lasp_core.specs.Core.{IsOpen};
ghost use Rattle.lasp_core.specs.Reads.{read_of};

use crate::wrong::Wrong;
use lasp_core::{Core, ReadNo, Released, UpdateRefused};
use lasp_graph::Graph;
use lasp_state::{Op, Threshold};
use lasp_value::Value;
use std::alloc::{AllocError, Global};
use std::sync::Arc;

/// The core of the one replica, to which nothing has happened.
pub fn core_of(alloc: Global, graph: &Arc<Graph>) -> Result<Core, AllocError> {
    Core::new(alloc, Arc::try_clone(graph)?, 0, 1)
}

/// Adds a number to a set.
pub fn add(core: &mut Core, var: u8, n: i64) -> Result<Released, UpdateRefused> {
    core.update(0, var, &Op::Add(Value::Int(n)))
}

/// Removes a number from a set.
pub fn remove(core: &mut Core, var: u8, n: i64) -> Result<Released, UpdateRefused> {
    core.update(0, var, &Op::Remove(Value::Int(n)))
}

/// Counts up.
pub fn count(core: &mut Core, var: u8, by: u32) -> Result<Released, UpdateRefused> {
    core.update(0, var, &Op::Inc(by))
}

/// Opens a read that waits for a total.
pub fn await_total(core: &mut Core, var: u8, total: u64) -> Result<ReadNo, Wrong>
    ensures { IfOk result (λ r. IsOpen core.new.frame core.new.entries (read_of r)) }
{
    let threshold = Threshold::Count(total);
    if u64::from(var) >= core.graph().len() || !threshold.suits(core.state(var)) {
        return Err(Wrong);
    }
    Ok(core.open_read(var, threshold)?)
}
