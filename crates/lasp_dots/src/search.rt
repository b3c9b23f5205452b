//! Searches among ascending pairs.

ghost use Rattle.std.specs.Prelude.{◌≡◌, nat_lt};
ghost use Rattle.lasp_dots.specs.Prelude.{list_any, mark, IsAscending, is_of, val_of};

use super::dot::Dot;
use super::edges::Begin;
use crate::pieces::Pieces;
use lasp_value::Value;

/// Whether the pair is among them.
pub(crate) fn holds(dots: &Pieces<Dot>, dot: &Dot) -> bool
    requires { IsAscending dots.now }
    ensures { result ≡ nat_lt 0 (mark dots.now dot.now.0.0 dot.now.0.1) }
{
    match dots.behind(dot) {
        Some(found) => found.compare(dot).is_eq(),
        None => false,
    }
}

/// Whether a pair is of the value.
pub(crate) fn has_value(dots: &Pieces<Dot>, value: &Value) -> bool
    requires { IsAscending dots.now }
    ensures { result ≡ list_any (is_of (val_of value.now)) dots.now }
{
    match dots.behind(&Begin { value }) {
        Some(found) => found.is_of(value),
        None => false,
    }
}
