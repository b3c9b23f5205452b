//! Which scripts nodes may run that run beside each other.

ghost use Rattle.std.specs.Prelude.{◌≡◌, ◌<◌};
ghost use Rattle.model_live.specs.Words as words;
ghost use Rattle.model_world.specs.Lawful.{IsWithinLimits};
ghost use Rattle.lasp_live.specs.Prelude.{command_of, until_of};

use lasp_script::{Command, Script, Until};

/// The first number that is too great for a command.
const NUMBER_LIMIT: u32 = 65_536;

fn is_live_until(until: &Until) -> bool
    ensures { result ≡ words.is_live_until (until_of until.now) }
{
    match until {
        Until::AtLeast(_) | Until::Above(_) => false,
        Until::Count(_) | Until::Added(_) | Until::Removed(_) => true,
    }
}

fn is_live_command(command: &Command) -> bool
    ensures { result ≡ words.is_live_command (command_of command.now) }
{
    match command {
        Command::Add(_, _, _)
        | Command::Remove(_, _, _)
        | Command::Insert(_, _, _)
        | Command::Inc(_, _, _)
        | Command::Max(_, _, _)
        | Command::Send(_)
        | Command::Print(_, _) => true,
        Command::Await(_, _, until) => is_live_until(until),
        Command::Mark(_, _)
        | Command::Bind(_, _, _)
        | Command::Deliver(_, _)
        | Command::Sync
        | Command::Settle
        | Command::Read(_, _, _)
        | Command::Declare(_) => false,
    }
}

/// Whether such nodes know a command, under this number.
fn is_live_at(number: u32, command: &Command) -> bool
    ensures { result ≡ words.is_live_at number (command_of command.now) }
{
    is_live_command(command) && number < NUMBER_LIMIT
}

/// The number of the first command that such nodes don't know: of another word, of a threshold with a mark, or of too great a number.
pub fn first_other(script: &Script) -> Option<u32>
    requires { IsWithinLimits script.now }
    ensures { result ≡ words.first_other 1 script.now.commands }
{
    let mut number: u32 = 1;
    for i in 0..script.len() {
        if !is_live_at(number, script.at(i)) {
            return Some(number);
        }
        number += 1;
    }
    None
}
