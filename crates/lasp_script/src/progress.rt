//! What the commands that were read so far leave for the next one.

ghost use Rattle.std.specs.Prelude.{◌≡◌, ◌+◌, ◌++◌, ◌<◌, [], None, length, option_map, IfOk};
ghost use Rattle.model_world.specs.Lawful.{is_mark};
ghost use Rattle.model_scripts.specs.Progress.{grown_by};
ghost use Rattle.model_scripts.specs.Check.{command_limit, has_room};
ghost use Rattle.lasp_script.specs.Command.{command_of, commands_of};
ghost use Rattle.lasp_script.specs.Progress.{left, count_among, present, progress_over, marks_by, sent_by, reads_by, behind, MayMark, MayGrow};
ghost use Rattle.lasp_script.specs.Word.{word_view};

use super::command::Command;
use super::marks::Marks;
use super::word::Word;
use lasp_graph::Graph;
use std::alloc::{AllocError, Global};
use std::marker::Model;

/// How many commands a script may have, with the one that tells the nodes.
const COMMAND_LIMIT: u32 = 100_000;

/// How many marks a script may make.
const MARK_LIMIT: u32 = 1_000;

/// How many reads a script may open.
const READ_LIMIT: u32 = 1_000;

/// How many variables a graph may have.
const VARIABLE_LIMIT: u64 = 64;

/// The commands so far, and what they leave for the next one beside the graph that the script began with.
#[derive(Drop)]
pub(crate) struct Progress {
    commands: Vec<Command>,
    /// The graph, where commands declared variables.
    grown: Option<Graph>,
    marks: Marks,
    sent: u32,
    reads: u32,
}

impl Model for Progress {
    ghost use Rattle.lasp_script.specs.Command.{commands_of};
    ghost use Rattle.lasp_script.specs.Progress.{Left, left, coded_left, IsKept};

    ghost Value = { Left };

    ghost coded = { coded_left };

    ghost view = { λ a. left (commands_of a.commands.items) a.grown a.marks a.sent };

    ghost invariant = { λ a. IsKept (commands_of a.commands.items) a.marks a.sent a.reads };
}

impl Progress {
    /// Before the first command. It takes no memory yet.
    pub fn new(alloc: Global) -> Progress
        ensures { result ≡ left [] None [] 0 }
    {
        Progress {
            commands: Vec::new(alloc),
            grown: None,
            marks: Marks::new(alloc),
            sent: 0,
            reads: 0,
        }
    }

    /// The number of the next command, 100,000 at most.
    pub fn number(&self) -> u32
        ensures { result ≡ length self.now.commands + 1 }
    {
        self.commands.len() as u32 + 1
    }

    /// The present graph, which is the one that the script began with where nothing was declared.
    pub fn graph<'a>(&'a self, g: &'a Graph) -> &'a Graph
        ensures { result.now ≡ present g.now self.now.grown }
    {
        match &self.grown {
            Some(grown) => grown,
            None => g,
        }
    }

    /// The marks so far.
    pub fn marks(&self) -> &Marks
        ensures { result.now ≡ self.now.marks }
    {
        &self.marks
    }

    /// How many messages were sent.
    pub fn sent(&self) -> u32
        ensures { result ≡ self.now.sent }
    {
        self.sent
    }

    /// Whether there is room for the command, and for what it makes.
    pub fn has_room(&self, word: &Word, g: &Graph) -> bool
        ensures exact { result ≡ has_room (progress_over g.now self.now) (word_view word.now) }
        ensures marks { length self.now.marks ≡ count_among is_mark self.now.commands }
    {
        let room = match word {
            Word::Mark(_, _) => self.marks.len() < MARK_LIMIT,
            Word::Read(_, _) => self.reads < READ_LIMIT,
            Word::Declare(_) => self.graph(g).len() < VARIABLE_LIMIT,
            _ => true,
        };
        self.number() < COMMAND_LIMIT && room
    }

    /// The progress behind a command more, and behind the mark that it makes under the name.
    pub fn with(
        self,
        alloc: Global,
        command: Command,
        name: Option<&str>,
        g: &Graph,
        nodes: u8,
    ) -> Result<Progress, AllocError>
        requires room { length self.commands + 1 < command_limit }
        requires mark { MayMark self.marks (command_of command) (option_map (λ s. s.now) name) }
        requires grow { MayGrow (present g.now self.grown) (command_of command) }
        ensures { IfOk result (λ p. progress_over g.now p ≡ behind nodes (progress_over g.now self) (command_of command) (option_map (λ s. s.now) name.entry)) }
    {
        let grown = grown_with(alloc, self.grown, g, &command)?;
        let marks = marks_with(alloc, self.marks, &command, name)?;
        let sent = self.sent + sent_by(&command, nodes);
        let reads = self.reads + reads_by(&command);
        let mut commands = self.commands;
        commands.push(command)?;
        Ok(Progress {
            commands,
            grown,
            marks,
            sent,
            reads,
        })
    }

    /// The commands that were read.
    pub fn into_commands(self) -> Vec<Command>
        ensures few { length result.items < command_limit }
        ensures commands { commands_of result.items ≡ self.commands }
    {
        self.commands
    }
}

/// The graph behind a command. It is copied where the command declares a variable.
fn grown_with(
    alloc: Global,
    grown: Option<Graph>,
    g: &Graph,
    command: &Command,
) -> Result<Option<Graph>, AllocError>
    requires { MayGrow (present g.now grown) (command_of command.now) }
    ensures { IfOk result (λ h. present g.now h ≡ grown_by (present g.now grown) (command_of command.now)) }
{
    match (command, &grown) {
        (Command::Declare(decl), Some(before)) => Ok(Some(before.with(alloc, decl)?)),
        (Command::Declare(decl), None) => Ok(Some(g.with(alloc, decl)?)),
        _ => Ok(grown),
    }
}

/// The marks behind a command, which may make one under the name.
fn marks_with(
    alloc: Global,
    marks: Marks,
    command: &Command,
    name: Option<&str>,
) -> Result<Marks, AllocError>
    requires { MayMark marks (command_of command.now) (option_map (λ s. s.now) name) }
    ensures { IfOk result (λ more. more ≡ marks ++ marks_by (command_of command.now) (option_map (λ s. s.now) name.entry)) }
{
    match (command, name) {
        (Command::Mark(_, var), Some(name)) => marks.with(alloc, name, *var),
        _ => Ok(marks),
    }
}

/// How many messages a command sends.
fn sent_by(command: &Command, nodes: u8) -> u32
    ensures { result ≡ sent_by nodes (command_of command.now) }
{
    match command {
        Command::Send(_) => 1,
        Command::Sync => u32::from(nodes),
        _ => 0,
    }
}

/// How many reads a command opens.
fn reads_by(command: &Command) -> u32
    ensures { result ≡ reads_by (command_of command.now) }
{
    match command {
        Command::Read(_, _, _) => 1,
        _ => 0,
    }
}
