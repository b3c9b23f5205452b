//! Pairs that come and go.

ghost use Rattle.std.specs.Prelude.{◌≡◌, OnOk, OnErr, not, filter};
ghost use Rattle.lasp_dots.specs.Prelude.{mark, IsAscending, put, is_of, val_of};

use super::dot::Dot;
use super::edges::{Begin, End};
use crate::pieces::Pieces;
use lasp_value::Value;
use std::alloc::AllocError;

/// Puts a new pair where it belongs. It costs a search.
pub(crate) fn put_in(dots: &mut Pieces<Dot>, dot: Dot) -> Result<(), AllocError>
    requires ascends { IsAscending dots.old }
    requires fresh { mark dots.old dot.0.0 dot.0.1 ≡ 0 }
    ensures ok { OnOk result (dots.new ≡ put dot dots.old) }
    ensures err { OnErr result (dots.new ≡ dots.old) }
{
    dots.put(dot)
}

/// Takes all pairs of a value out. It costs two searches.
pub(crate) fn take_out(dots: &mut Pieces<Dot>, value: &Value) -> Result<(), AllocError>
    requires { IsAscending dots.old }
    ensures ok { OnOk result (dots.new ≡ filter (λ r. not (is_of (val_of value.now) r)) dots.old) }
    ensures err { OnErr result (dots.new ≡ dots.old) }
{
    dots.take_between(&Begin { value }, &End { value })
}
