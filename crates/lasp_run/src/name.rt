//! The names of variables, with those that a script declares.

ghost use Rattle.std.specs.Prelude.{◌≡◌, ◌<◌, [], ◌∷◌, length, IfOk, IfSome, IfNone};
ghost use Rattle.lasp_run.specs.Prelude.{name_at, grown_by, grown, decl_of, command_of};

use lasp_graph::{Decl, Graph};
use lasp_script::{Command, Script};
use lasp_value::Name;
use std::alloc::AllocError;

#[tactic(auto, using(crate::proofs::NameLaws::names))]
/// The name of a variable of the graph with all that a script declares.
pub(crate) fn declared_name(graph: &Graph, script: &Script, var: u8) -> Result<Name, AllocError>
    requires { var < length (grown graph.now script.now.commands) }
    ensures { IfOk result (λ name. name ≡ name_at (grown graph.now script.now.commands) var) }
{
    let var = u64::from(var);
    if var < graph.len() {
        return graph.at(var).name.try_clone();
    }
    name_in_script(script, var - graph.len())
}

/// What a command declares.
fn declared(command: &Command) -> Option<&Decl>
    ensures some { IfSome result (λ d. grown_by [] (command_of command.now) ≡ decl_of d.now ∷ []) }
    ensures none { IfNone result (grown_by [] (command_of command.now) ≡ []) }
{
    match command {
        Command::Declare(decl) => Some(decl),
        _ => None,
    }
}

#[tactic(auto, using(crate::proofs::NameLaws::places))]
/// The name of a script's declaration with this number, counted from 0.
fn name_in_script(script: &Script, number: u64) -> Result<Name, AllocError>
    requires { number < length (grown [] script.now.commands) }
    ensures { IfOk result (λ name. name ≡ name_at (grown [] script.now.commands) number) }
{
    let mut left = number;
    for i in 0..script.len() {
        match declared(script.at(i)) {
            Some(decl) if left == 0 => return decl.name.try_clone(),
            Some(_) => left -= 1,
            None => {}
        }
    }
    unreachable!()
}
