//! Which commands such replicas know.

ghost use Rattle.std.specs.Prelude.{◌≡◌, ◌<◌, length};
ghost use Rattle.lasp_dots.specs.Prelude.{is_dot_command, first_other, command_of};

use lasp_script::{Command, Script};

fn is_known(command: &Command) -> bool
    ensures { result ≡ is_dot_command (command_of command.now) }
{
    matches!(
        command,
        Command::Add(_, _, _)
            | Command::Remove(_, _, _)
            | Command::Send(_)
            | Command::Deliver(_, _)
            | Command::Sync
            | Command::Settle
            | Command::Print(_, _)
    )
}

/// The number of the first command of another word, or None where such replicas know all.
pub fn first_other(script: &Script) -> Option<u32>
    requires { length script.now.commands < 100000 }
    ensures { result ≡ first_other 1 script.now.commands }
{
    let mut number: u32 = 1;
    for i in 0..script.len() {
        if !is_known(script.at(i)) {
            return Some(number);
        }
        number += 1;
    }
    None
}
