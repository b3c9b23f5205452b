//! The summary of a run: a number for each variable of its first node, and what each node knows.

ghost use Rattle.std.specs.Prelude.{◌≡◌, ◌++◌, ◌∷◌, [], ◌<◌, IfOk, OnOk, length, string_bytes};
ghost use Rattle.std.specs.Fmt.{decimal};
ghost use Rattle.model_journal.specs.Journal as journal;
ghost use Rattle.model_program.specs.Summary.{load_line};
ghost use Rattle.model_world.specs.Line.{line, line_rest, known_line};
ghost use Rattle.lasp_top.specs.Summary.{state_number, core_lines, known_by, IsSummary};

use crate::generator::push_decimal;
use lasp_core::Core;
use lasp_drive::push_counts;
use lasp_state::State;
use std::alloc::{AllocError, Global};

/// Appends a state's number: how many values of a set are visible, how many elements there are, a total, a number.
fn push_number(text: &mut String, state: &State) -> Result<(), AllocError>
    ensures { OnOk result (string_bytes text.new ≡ string_bytes text.old ++ state_number state.now) }
{
    match state {
        State::Set(set) => push_decimal(text, set.visible()?.len()),
        State::Grow(elements) => push_decimal(text, elements.len()),
        State::Count(_) => state.print_into(text),
        State::Max(_) => state.print_into(text),
        State::Fold(_, _) => state.print_into(text),
    }
}

/// Appends the line of a variable.
fn push_variable(text: &mut String, name: &str, state: &State) -> Result<(), AllocError>
    ensures { OnOk result (string_bytes text.new ≡ string_bytes text.old ++ line (name.now ∷ state_number state.now ∷ [])) }
{
    text.push_str(name)?;
    text.push(' ')?;
    push_number(text, state)?;
    text.push('\n')
}

/// Appends a line for each variable of a core.
fn push_variables(text: &mut String, core: &Core) -> Result<(), AllocError>
    ensures { OnOk result (string_bytes text.new ≡ string_bytes text.old ++ core_lines core.now) }
{
    core.recall();
    let graph = core.graph();
    for x in 0..graph.len() {
        push_variable(text, graph.at(x).name.as_str(), core.state(x as u8))?;
    }
    Ok(())
}

/// Appends the line of what a node knows.
fn push_known(text: &mut String, p: u64, counts: &[u64]) -> Result<(), AllocError>
    ensures { OnOk result (string_bytes text.new ≡ string_bytes text.old ++ known_line p counts.now) }
{
    text.push_str("known ")?;
    push_decimal(text, p)?;
    push_counts(text, counts)
}

/// Appends a line of what it knows for each core.
fn push_all_known(text: &mut String, cores: &[Core]) -> Result<(), AllocError>
    ensures { OnOk result (string_bytes text.new ≡ string_bytes text.old ++ known_by 0 cores.now) }
{
    for p in 0..cores.len() {
        push_known(text, p as u64, cores[p].counts().as_slice())?;
    }
    Ok(())
}

/// Appends the summary's first line.
fn push_head(text: &mut String, seed: u32, count: u32) -> Result<(), AllocError>
    ensures { OnOk result (string_bytes text.new ≡ string_bytes text.old ++ load_line seed count) }
{
    text.push_str("load ")?;
    push_decimal(text, u64::from(seed))?;
    text.push(' ')?;
    push_decimal(text, u64::from(count))?;
    text.push('\n')
}

/// The summary of a run of the generated script that left these cores, of which there is one at least: the variables are those of the first.
pub fn load_text(
    alloc: Global,
    seed: u32,
    count: u32,
    cores: &[Core],
) -> Result<Vec<u8>, AllocError>
    requires { 0 < length cores.now }
    ensures { IfOk result (λ text. IsSummary seed count cores.now text.items) }
{
    let mut text = String::new(alloc);
    push_head(&mut text, seed, count)?;
    push_variables(&mut text, &cores[0])?;
    push_all_known(&mut text, cores)?;
    Ok(text.into_bytes())
}
