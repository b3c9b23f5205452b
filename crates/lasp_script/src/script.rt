//! The script: its nodes and commands.

ghost use Rattle.std.specs.Prelude.{◌≡◌, ◌<◌, length, slice_get, Some, map};
ghost use Rattle.lasp_script.specs.Command.{command_of};
ghost use Rattle.lasp_script.specs.Kept.{script_of_parts};

use super::command::Command;
use std::marker::Model;

/// A script, read against a graph. The command with number i stands at place i - 1, since number 0 tells the nodes.
#[derive(Drop)]
pub struct Script {
    nodes: u8,
    commands: Vec<Command>,
}

impl Model for Script {
    ghost use Rattle.model_world.specs.Command.{Script};
    ghost use Rattle.lasp_script.specs.Coded.{coded_script};
    ghost use Rattle.lasp_script.specs.Kept.{script_of_parts};

    ghost Value = { Script };

    ghost coded = { coded_script };

    ghost view = { λ a. script_of_parts a.nodes a.commands.items };
}

impl Script {
    /// The script of so many nodes with these commands.
    pub fn of(nodes: u8, commands: Vec<Command>) -> Script
        ensures { result ≡ script_of_parts nodes commands.items }
    {
        Script { nodes, commands }
    }

    /// The number of nodes.
    pub fn nodes(&self) -> u8
        ensures { result ≡ self.now.nodes }
    {
        self.nodes
    }

    /// The number of commands, without the one that tells the nodes.
    pub fn len(&self) -> u64
        ensures { result ≡ length self.now.commands }
    {
        self.commands.len() as u64
    }

    /// The command at a place, counted from 0.
    pub fn at(&self, i: u64) -> &Command
        requires { i < length self.now.commands }
        ensures { slice_get self.now.commands i ≡ Some (command_of result.now) }
    {
        &self.commands[i as usize]
    }
}
