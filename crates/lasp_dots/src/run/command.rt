//! One command of a script.

ghost use Rattle.std.specs.Prelude.{◌≡◌, ◌≤◌, ◌<◌, ◌++◌, OnOk, length, string_bytes};
ghost use Rattle.lasp_dots.specs.Prelude.{dot_print, dot_acts, dot_each, command_of, CanDo};

use super::replicas::DotReplicas;
use super::text::push_print;
use lasp_script::Command;
use std::alloc::AllocError;

/// Prints the set of a node, where there is one.
fn print(text: &mut String, replicas: &DotReplicas, command: &Command) -> Result<(), AllocError>
    requires { CanDo replicas.now (command_of command.now) }
    ensures { OnOk result (string_bytes text.new ≡ string_bytes text.old ++ dot_print replicas.now (command_of command.now)) }
{
    match command {
        Command::Print(p, _) => push_print(text, *p, replicas.node(usize::from(*p))),
        _ => Ok(()),
    }
}

/// What a command does to the replicas. Settling and printing change none of them.
fn act(replicas: &mut DotReplicas, command: &Command) -> Result<(), AllocError>
    requires can { CanDo replicas.old (command_of command.now) }
    requires few { length replicas.old.nodes ≤ 8 }
    ensures { OnOk result (replicas.new ≡ dot_each replicas.old (dot_acts replicas.old (command_of command.now))) }
{
    match command {
        Command::Add(p, _, value) => replicas.add(*p, value),
        Command::Remove(p, _, value) => replicas.remove(*p, value),
        Command::Send(p) => replicas.post(*p),
        Command::Deliver(p, i) => replicas.take(*p, *i as usize),
        Command::Sync => replicas.sync(),
        _ => Ok(()),
    }
}

/// Does a command, and appends what it prints.
pub(crate) fn do_command(
    replicas: &mut DotReplicas,
    text: &mut String,
    command: &Command,
) -> Result<(), AllocError>
    requires can { CanDo replicas.old (command_of command.now) }
    requires few { length replicas.old.nodes ≤ 8 }
    ensures done { OnOk result (replicas.new ≡ dot_each replicas.old (dot_acts replicas.old (command_of command.now))) }
    ensures text { OnOk result (string_bytes text.new ≡ string_bytes text.old ++ dot_print replicas.old (command_of command.now)) }
{
    print(text, replicas, command)?;
    act(replicas, command)
}
