//! The lines of what such replicas print.

ghost use Rattle.std.specs.Prelude.{◌≡◌, ◌++◌, ◌∷◌, [], OnOk, length, string_bytes, codes, map};
ghost use Rattle.lasp_dots.specs.Prelude.{decimal, shown_values, visible, line, line_rest, known_line};

use crate::DotSet;
use lasp_value::{Values, print_into};
use std::alloc::AllocError;

fn push_decimal(text: &mut String, n: u64) -> Result<(), AllocError>
    ensures { OnOk result (string_bytes text.new ≡ string_bytes text.old ++ decimal n) }
{
    text.push_str(itoa::Buffer::new().format(n))
}

/// Appends values as an array of JSON.
fn push_values(text: &mut String, values: &Values) -> Result<(), AllocError>
    ensures { OnOk result (string_bytes text.new ≡ string_bytes text.old ++ shown_values values.now) }
{
    if values.len() == 0 {
        return text.push_str("[]");
    }
    text.push('[')?;
    print_into(text, values.at(0))?;
    for i in 1..values.len() {
        text.push(',')?;
        print_into(text, values.at(i))?;
    }
    text.push(']')
}

/// Appends the line of a print: the node, the set's name, and what the set shows.
pub(crate) fn push_print(text: &mut String, p: u8, set: &DotSet) -> Result<(), AllocError>
    ensures { OnOk result (string_bytes text.new ≡ string_bytes text.old ++ line (decimal p ∷ codes "a" ∷ shown_values (visible set.now.rows) ∷ [])) }
{
    push_decimal(text, u64::from(p))?;
    text.push_str(" a ")?;
    push_values(text, &set.visible()?)?;
    text.push('\n')
}

/// Appends each count after a space, and the line's end.
fn push_counts(text: &mut String, set: &DotSet) -> Result<(), AllocError>
    ensures { OnOk result (string_bytes text.new ≡ string_bytes text.old ++ line_rest (map decimal set.now.counts)) }
{
    for q in 0..set.nodes() {
        text.push(' ')?;
        push_decimal(text, set.count_of(q))?;
    }
    text.push('\n')
}

/// Appends the line of what a node knows: how many updates of each replica.
pub(crate) fn push_known(text: &mut String, p: u64, set: &DotSet) -> Result<(), AllocError>
    ensures { OnOk result (string_bytes text.new ≡ string_bytes text.old ++ known_line p set.now.counts) }
{
    text.push_str("known ")?;
    push_decimal(text, p)?;
    push_counts(text, set)
}

/// Appends the line of how many pairs a node keeps.
pub(crate) fn push_size(text: &mut String, p: u64, set: &DotSet) -> Result<(), AllocError>
    ensures { OnOk result (string_bytes text.new ≡ string_bytes text.old ++ line (codes "dots" ∷ decimal p ∷ decimal (length set.now.rows) ∷ [])) }
{
    text.push_str("dots ")?;
    push_decimal(text, p)?;
    text.push(' ')?;
    push_decimal(text, set.dots())?;
    text.push('\n')
}
