//! The lines of the report.

ghost use Rattle.std.specs.Prelude.{◌≡◌, ◌++◌, ◌∷◌, [], OnOk, string_bytes, codes, map};
ghost use Rattle.std.specs.Fmt.{decimal};
ghost use Rattle.model_world.specs.Line.{line, line_rest, known_line, read_line};
ghost use Rattle.lasp_state.specs.State.{shown_state};

use lasp_state::State;
use std::alloc::AllocError;
use std::fmt::Write;

fn push_decimal(text: &mut String, n: u64) -> Result<(), AllocError>
    ensures { OnOk result (string_bytes text.new ≡ string_bytes text.old ++ decimal n) }
{
    text.push_str(itoa::Buffer::new().format(n))
}

fn push_word(text: &mut String, word: &str) -> Result<(), AllocError>
    ensures { OnOk result (string_bytes text.new ≡ string_bytes text.old ++ 32 ∷ word.now) }
{
    text.push(' ')?;
    text.push_str(word)
}

/// Appends a state after a space, and the line's end.
pub fn push_state(text: &mut String, state: &State) -> Result<(), AllocError>
    ensures { OnOk result (string_bytes text.new ≡ string_bytes text.old ++ (32 ∷ (shown_state state.now ++ 10 ∷ []))) }
{
    text.push(' ')?;
    state.print_into(text)?;
    text.push('\n')
}

/// Appends the line of a print: the node, the variable's name, its state.
pub fn print_line(text: &mut String, p: u8, name: &str, state: &State) -> Result<(), AllocError>
    ensures { OnOk result (string_bytes text.new ≡ string_bytes text.old ++ line (decimal p ∷ name.now ∷ shown_state state.now ∷ [])) }
{
    push_decimal(text, p as u64)?;
    push_word(text, name)?;
    push_state(text, state)
}

/// Appends each count after a space, and the line's end.
pub fn push_counts(text: &mut String, counts: &[u64]) -> Result<(), AllocError>
    ensures { OnOk result (string_bytes text.new ≡ string_bytes text.old ++ line_rest (map decimal counts.now)) }
{
    for count in counts {
        text.push(' ')?;
        push_decimal(text, *count)?;
    }
    text.push('\n')
}

/// Appends the line of what a node knows: how many updates of each replica.
pub fn push_known(text: &mut String, p: u64, counts: &[u64]) -> Result<(), AllocError>
    ensures { OnOk result (string_bytes text.new ≡ string_bytes text.old ++ known_line p counts.now) }
{
    text.push_str("known ")?;
    push_decimal(text, p)?;
    push_counts(text, counts)
}

/// Appends the line of a read: its number, and whether its variable came to the threshold.
pub fn push_read(text: &mut String, k: u64, met: bool) -> Result<(), AllocError>
    ensures { OnOk result (string_bytes text.new ≡ string_bytes text.old ++ read_line k met) }
{
    text.push_str("read ")?;
    push_decimal(text, k)?;
    text.push_str(if met { " reached\n" } else { " pending\n" })
}
