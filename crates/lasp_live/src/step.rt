//! What the commands of a script are at one node.

ghost use Rattle.std.specs.Prelude.{IfOk};
ghost use Rattle.lasp_live.specs.Step.{IsStepOf};

use lasp_script::{Command, Until};
use lasp_state::Op;
use std::alloc::{AllocError, Global};

/// What a node does by a command.
#[derive(Drop)]
pub(crate) enum Step<'a> {
    /// It updates this variable.
    Update(u8, Op),
    /// It sends what it holds to all others.
    Send,
    /// It prints this variable.
    Print(u8),
    /// It waits until this variable is at this threshold.
    Await(u8, &'a Until),
}

/// What a command is at node p, if it is one of that node. A value is copied.
pub(crate) fn step_of(
    alloc: Global,
    command: &Command,
    p: u8,
) -> Result<Option<Step<'_>>, AllocError>
    ensures { IfOk result (IsStepOf p command.now) }
{
    match command {
        Command::Add(q, x, value) if *q == p => {
            Ok(Some(Step::Update(*x, Op::Add(value.try_clone(alloc)?))))
        }
        Command::Remove(q, x, value) if *q == p => {
            Ok(Some(Step::Update(*x, Op::Remove(value.try_clone(alloc)?))))
        }
        Command::Insert(q, x, value) if *q == p => {
            Ok(Some(Step::Update(*x, Op::Insert(value.try_clone(alloc)?))))
        }
        Command::Inc(q, x, by) if *q == p => Ok(Some(Step::Update(*x, Op::Inc(*by)))),
        Command::Max(q, x, top) if *q == p => Ok(Some(Step::Update(*x, Op::Max(*top)))),
        Command::Send(q) if *q == p => Ok(Some(Step::Send)),
        Command::Print(q, x) if *q == p => Ok(Some(Step::Print(*x))),
        Command::Await(q, x, until) if *q == p => Ok(Some(Step::Await(*x, until))),
        _ => Ok(None),
    }
}
