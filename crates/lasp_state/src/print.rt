//! The printed forms of states.

ghost use Rattle.std.specs.Prelude.{◌≡◌, ◌++◌, IfOk, OnOk, string_bytes};
ghost use Rattle.std.specs.Fmt.{decimal, signed_decimal};
ghost use Rattle.model_world.specs.Line.{shown_top};
ghost use Rattle.lasp_state.specs.State.{shown_state};

use super::state::State;
use lasp_value::Text;
use std::alloc::{AllocError, Global};

/// The text of a state: of a set the JSON array of its visible values in ascending order, of a grow-only set that of its elements, of a counter its total, of a register its number or `null`, of a fold its number.
pub fn print_state(alloc: Global, s: &State) -> Result<Text, AllocError>
    ensures { IfOk result (λ t. t ≡ shown_state s.now) }
{
    let mut out = String::new(alloc);
    s.print_into(&mut out)?;
    Ok(Text::from_string(out))
}

/// A total in decimal digits.
pub(crate) fn print_total(total: u64, out: &mut String) -> Result<(), AllocError>
    ensures { OnOk result (string_bytes out.new ≡ string_bytes out.old ++ decimal total) }
{
    write!(out, "{total}")
}

/// A number in decimal digits, or `null` where there is none yet.
pub(crate) fn print_number(number: Option<i64>, out: &mut String) -> Result<(), AllocError>
    ensures { OnOk result (string_bytes out.new ≡ string_bytes out.old ++ shown_top number) }
{
    match number {
        Some(number) => write!(out, "{number}"),
        None => out.push_str("null"),
    }
}

/// The number of a fold in decimal digits.
pub(crate) fn print_fold(number: i128, out: &mut String) -> Result<(), AllocError>
    ensures { OnOk result (string_bytes out.new ≡ string_bytes out.old ++ signed_decimal number) }
{
    write!(out, "{number}")
}
