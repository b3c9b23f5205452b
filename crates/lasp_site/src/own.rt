//! Whether a script is a site's own: it has the node, and updates of it alone.

ghost use Rattle.std.specs.Prelude.{◌≡◌, ◌<◌, length, is_some};
ghost use Rattle.model_site.specs.Follows.{Gives};
ghost use Rattle.model_site.specs.Program.{is_for};
ghost use Rattle.model_site.specs.Site.{own, first_other};
ghost use Rattle.lasp_script.specs.Command.{command_of};

use crate::open::shared;
use lasp_script::{Command, Script};
use model_program::Refusal;
use model_scripts::ScriptWhy;
use model_site::{SiteFailure, SiteRefusal};

/// Whether a command is an update of the node.
fn is_own(node: u8, command: &Command) -> bool
    ensures { result ≡ is_some (own node (command_of command.now)) }
{
    match command {
        Command::Add(p, _, _) | Command::Remove(p, _, _) | Command::Insert(p, _, _) => *p == node,
        Command::Inc(p, _, _) => *p == node,
        Command::Max(p, _, _) => *p == node,
        _ => false,
    }
}

/// The number of the first command that is no update of the node, or None where all are.
fn first_other(node: u8, script: &Script) -> Option<u32>
    requires { length script.now.commands < 100000 }
    ensures { result ≡ first_other node 1 script.now.commands }
{
    let mut number: u32 = 1;
    for i in 0..script.len() {
        if !is_own(node, script.at(i)) {
            return Some(number);
        }
        number += 1;
    }
    None
}

/// Passes a script that has the node, and updates of it alone.
pub(crate) fn check_own(node: u8, script: &Script) -> Result<(), SiteFailure>
    requires { length script.now.commands < 100000 }
    ensures { Gives (λ u. u) (is_for node script.now) result }
{
    if node >= script.nodes() {
        let number = script.len() as u32 + 1;
        return Err(shared(Refusal::Script(number, ScriptWhy::NoSuchNode)));
    }
    match first_other(node, script) {
        Some(number) => Err(SiteFailure::Refused(SiteRefusal::NotLocal(number))),
        None => Ok(()),
    }
}
