//! The updates of sources: a node, a variable of the kind that the word works on, and what the update brings.

ghost use Rattle.std.specs.Prelude.{◌≡◌};
ghost use Rattle.serde_json.specs.View.{view, number_view};
ghost use Rattle.lasp_value.specs.Value.{val_of};
ghost use Rattle.model_scripts.specs.Check.{is_counter, is_maxreg};
ghost use Rattle.lasp_script.specs.Made.{value_read, step_read, top_read, change_read};
ghost use Rattle.lasp_script.specs.Updated.{updated};
ghost use Rattle.lasp_script.specs.Kinds.{is_among};
ghost use Rattle.lasp_script.specs.Word.{target_view};
ghost use Rattle.lasp_script.specs.Command.{command_of};
ghost use Rattle.lasp_script.specs.Answers.{Answers};

use super::command::Command;
use super::kinds::Kinds;
use super::payload::{read_step, read_top, read_value};
use super::place::{check_kind, read_place};
use super::refused::CommandRefused;
use super::word::{Target, Update};
use lasp_graph::Graph;
use lasp_value::Value;
use model_scripts::ScriptWhy;
use serde_json::{Number, Value as Json};
use std::alloc::Global;

/// The command of an update.
pub(crate) fn read_update(
    alloc: Global,
    target: &Target,
    update: &Update,
    g: &Graph,
    nodes: u8,
) -> Result<Command, CommandRefused>
    ensures { Answers command_of result (updated g.now nodes (target_view target.now) update.now) }
{
    match update {
        Update::Add(value) => {
            let (node, var, value) = read_change(alloc, Kinds::OrSet, target, value, g, nodes)?;
            Ok(Command::Add(node, var, value))
        }
        Update::Remove(value) => {
            let (node, var, value) = read_change(alloc, Kinds::OrSet, target, value, g, nodes)?;
            Ok(Command::Remove(node, var, value))
        }
        Update::Insert(value) => {
            let (node, var, value) = read_change(alloc, Kinds::GSet, target, value, g, nodes)?;
            Ok(Command::Insert(node, var, value))
        }
        Update::Inc(count) => {
            let (node, var, count) = read_more(target, count, g, nodes)?;
            Ok(Command::Inc(node, var, count))
        }
        Update::Max(top) => {
            let (node, var, top) = read_raise(target, top, g, nodes)?;
            Ok(Command::Max(node, var, top))
        }
    }
}

/// A change of a set by a value.
#[tactic(auto, unfolding(crate::specs::Made::change_read))]
fn read_change(
    alloc: Global,
    kinds: Kinds,
    target: &Target,
    value: &Json,
    g: &Graph,
    nodes: u8,
) -> Result<(u8, u8, Value), CommandRefused>
    ensures { Answers (λ c. (c.0, c.1, val_of c.2)) result (change_read (is_among kinds) g.now nodes (target_view target.now) (value_read (view value.now))) }
{
    let (node, var) = read_place(target, g, nodes)?;
    check_kind(kinds, g, var)?;
    Ok((node, var, read_value(alloc, value)?))
}

/// A counter's steps more.
#[tactic(auto, unfolding(crate::specs::Made::change_read))]
fn read_more(
    target: &Target,
    count: &Number,
    g: &Graph,
    nodes: u8,
) -> Result<(u8, u8, u32), ScriptWhy>
    ensures { result ≡ change_read is_counter g.now nodes (target_view target.now) (step_read (number_view count.now)) }
{
    let (node, var) = read_place(target, g, nodes)?;
    check_kind(Kinds::Counter, g, var)?;
    Ok((node, var, read_step(count)?))
}

/// A raise of a register.
#[tactic(auto, unfolding(crate::specs::Made::change_read))]
fn read_raise(
    target: &Target,
    top: &Number,
    g: &Graph,
    nodes: u8,
) -> Result<(u8, u8, i64), ScriptWhy>
    ensures { result ≡ change_read is_maxreg g.now nodes (target_view target.now) (top_read (number_view top.now)) }
{
    let (node, var) = read_place(target, g, nodes)?;
    check_kind(Kinds::MaxReg, g, var)?;
    Ok((node, var, read_top(top)?))
}
