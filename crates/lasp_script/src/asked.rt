//! Marks that are made and joined, and what is asked of variables.

ghost use Rattle.std.specs.Prelude.{◌≡◌, ◌<◌, length};
ghost use Rattle.lasp_script.specs.Command.{until_of};
ghost use Rattle.lasp_script.specs.Made.{mark_read, bind_read, marked_read, until_read, asked_read};
ghost use Rattle.lasp_script.specs.Marks.{names_of, marked_of};
ghost use Rattle.lasp_script.specs.Word.{target_view, bound_view};
ghost use Rattle.lasp_script.specs.Answers.{Answers};

use super::bound::Bound;
use super::command::Until;
use super::kinds::Kinds;
use super::marks::Marks;
use super::payload::{read_count, read_values};
use super::place::{check_kind, read_place};
use super::refused::CommandRefused;
use super::word::Target;
use lasp_graph::Graph;
use model_scripts::ScriptWhy;
use std::alloc::Global;

/// The place of a mark, whose name has to be new.
#[tactic(auto, unfolding(crate::specs::Made::mark_read))]
pub(crate) fn read_mark(
    target: &Target,
    name: &str,
    g: &Graph,
    nodes: u8,
    marks: &Marks,
) -> Result<(u8, u8), ScriptWhy>
    ensures { result ≡ mark_read g.now nodes (names_of marks.now) (target_view target.now) name.now }
{
    let (node, var) = read_place(target, g, nodes)?;
    if marks.find(name).is_some() {
        return Err(ScriptWhy::MarkTaken);
    }
    check_kind(Kinds::Source, g, var)?;
    Ok((node, var))
}

/// A place, and the number of a mark that was made of its variable.
#[tactic(auto, unfolding(crate::specs::Made::bind_read))]
pub(crate) fn read_bind(
    target: &Target,
    name: &str,
    g: &Graph,
    nodes: u8,
    marks: &Marks,
) -> Result<(u8, u8, u32), ScriptWhy>
    ensures { result ≡ bind_read g.now nodes (names_of marks.now) (marked_of marks.now) (target_view target.now) name.now }
{
    let (node, var) = read_place(target, g, nodes)?;
    let Some((number, marked)) = marks.find(name) else {
        return Err(ScriptWhy::UnknownMark);
    };
    if g.at(u64::from(var)).kind.is_source() && marked == var {
        Ok((node, var, number))
    } else {
        Err(ScriptWhy::WrongOp)
    }
}

/// A place, and a threshold that its variable may be asked for.
#[tactic(auto, unfolding(crate::specs::Made::asked_read))]
pub(crate) fn read_asked(
    alloc: Global,
    target: &Target,
    bound: &Bound,
    g: &Graph,
    nodes: u8,
    marks: &Marks,
) -> Result<(u8, u8, Until), CommandRefused>
    ensures { Answers (λ a. (a.0, a.1, until_of a.2)) result (asked_read g.now nodes (names_of marks.now) (marked_of marks.now) (target_view target.now) (bound_view bound.now)) }
{
    let (node, var) = read_place(target, g, nodes)?;
    let until = read_until(alloc, bound, g, var, marks)?;
    Ok((node, var, until))
}

fn read_until(
    alloc: Global,
    bound: &Bound,
    g: &Graph,
    var: u8,
    marks: &Marks,
) -> Result<Until, CommandRefused>
    requires { var < length g.now }
    ensures { Answers until_of result (until_read g.now (names_of marks.now) (marked_of marks.now) var (bound_view bound.now)) }
{
    match bound {
        Bound::AtLeast(name) => Ok(Until::AtLeast(read_marked(name, var, marks)?)),
        Bound::Above(name) => Ok(Until::Above(read_marked(name, var, marks)?)),
        Bound::Count(count) => {
            check_kind(Kinds::Counted, g, var)?;
            Ok(Until::Count(read_count(count)?))
        }
        Bound::Added(values) => {
            check_kind(Kinds::Valued, g, var)?;
            Ok(Until::Added(read_values(alloc, values)?))
        }
        Bound::Removed(values) => {
            check_kind(Kinds::Rowed, g, var)?;
            Ok(Until::Removed(read_values(alloc, values)?))
        }
    }
}

/// The number of a mark that was made of the variable.
#[tactic(auto, unfolding(crate::specs::Made::marked_read))]
fn read_marked(name: &str, var: u8, marks: &Marks) -> Result<u32, ScriptWhy>
    ensures { result ≡ marked_read (names_of marks.now) (marked_of marks.now) var name.now }
{
    match marks.find(name) {
        Some((number, marked)) if marked == var => Ok(number),
        Some(_) => Err(ScriptWhy::WrongOp),
        None => Err(ScriptWhy::UnknownMark),
    }
}
