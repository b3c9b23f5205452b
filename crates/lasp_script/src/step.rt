//! One word read to its command, behind the commands that were read so far.

ghost use Rattle.std.specs.Prelude.{◌≡◌, ◌+◌, ◌<◌, length, IfOk, OnOk};
ghost use Rattle.model_scripts.specs.Check.{command_limit, new_mark_in};
ghost use Rattle.lasp_graph.specs.Library.{library_of};
ghost use Rattle.lasp_script.specs.Command.{command_of};
ghost use Rattle.lasp_script.specs.Made.{made, command_read};
ghost use Rattle.lasp_script.specs.Progress.{present, progress_over, MayMark, MayGrow};
ghost use Rattle.lasp_script.specs.Word.{word_view};
ghost use Rattle.lasp_script.specs.Answers.{Answers};

use super::asked::{read_asked, read_bind, read_mark};
use super::command::Command;
use super::declared::read_declared;
use super::place::{read_message, read_node, read_place};
use super::progress::Progress;
use super::refused::CommandRefused;
use super::update::read_update;
use super::word::Word;
use lasp_fns::Library;
use lasp_graph::Graph;
use model_scripts::ScriptWhy;
use std::alloc::Global;

/// The command that a word is, where there is room for it.
pub(crate) fn read_command(
    alloc: Global,
    word: &Word,
    g: &Graph,
    lib: &Library,
    nodes: u8,
    before: &Progress,
) -> Result<Command, CommandRefused>
    ensures exact { Answers command_of result (command_read (library_of lib.now) nodes (progress_over g.now before.now) (word_view word.now)) }
    ensures room { OnOk result (length before.now.commands + 1 < command_limit) }
    ensures mark { IfOk result (λ k. MayMark before.now.marks (command_of k) (new_mark_in (word_view word.now))) }
    ensures grow { IfOk result (λ k. MayGrow (present g.now before.now.grown) (command_of k)) }
{
    let command = read_word(alloc, word, g, lib, nodes, before)?;
    if before.has_room(word, g) {
        Ok(command)
    } else {
        Err(CommandRefused::Because(ScriptWhy::TooMany))
    }
}

/// The command that a word is. Whether there is room for it isn't asked.
#[tactic(auto, using(crate::proofs::Table::updates))]
fn read_word(
    alloc: Global,
    word: &Word,
    g: &Graph,
    lib: &Library,
    nodes: u8,
    before: &Progress,
) -> Result<Command, CommandRefused>
    ensures { Answers command_of result (made (library_of lib.now) nodes (progress_over g.now before.now) (word_view word.now)) }
{
    let graph = before.graph(g);
    let marks = before.marks();
    match word {
        Word::Update(target, update) => read_update(alloc, target, update, graph, nodes),
        Word::Print(target) => {
            let (node, var) = read_place(target, graph, nodes)?;
            Ok(Command::Print(node, var))
        }
        Word::Mark(target, name) => {
            let (node, var) = read_mark(target, name, graph, nodes, marks)?;
            Ok(Command::Mark(node, var))
        }
        Word::Bind(target, name) => {
            let (node, var, number) = read_bind(target, name, graph, nodes, marks)?;
            Ok(Command::Bind(node, var, number))
        }
        Word::Send(node) => Ok(Command::Send(read_node(node, nodes)?)),
        Word::Deliver(node, message) => {
            let node = read_node(node, nodes)?;
            Ok(Command::Deliver(node, read_message(message, before.sent())?))
        }
        Word::Sync => Ok(Command::Sync),
        Word::Settle => Ok(Command::Settle),
        Word::Read(target, bound) => {
            let (node, var, until) = read_asked(alloc, target, bound, graph, nodes, marks)?;
            Ok(Command::Read(node, var, until))
        }
        Word::Await(target, bound) => {
            let (node, var, until) = read_asked(alloc, target, bound, graph, nodes, marks)?;
            Ok(Command::Await(node, var, until))
        }
        Word::Declare(tree) => Ok(Command::Declare(read_declared(alloc, tree, graph, lib)?)),
    }
}
