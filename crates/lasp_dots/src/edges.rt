//! Where a pair, and where the pairs of a value, stand among ascending pairs.

ghost use Rattle.lasp_dots.specs.Prelude.{val_of, is_below, is_before, is_within};

use super::dot::Dot;
use crate::pieces::Edge;
use lasp_value::Value;

/// Where a pair belongs: before it stand those below it.
impl Edge<Dot> for Dot {
    ghost in_front = { λ dot r. is_below dot.0 r };

    fn passes(&self, dot: &Dot) -> bool {
        dot.compare(self).is_lt()
    }
}

/// Where the pairs of a value begin: before it stand those of lesser values.
#[derive(Drop)]
pub(crate) struct Begin<'a> {
    pub(crate) value: &'a Value,
}

impl<'a> Edge<Dot> for Begin<'a> {
    ghost in_front = { λ edge r. is_before (val_of edge.value.now) r };

    fn passes(&self, dot: &Dot) -> bool {
        dot.compare_value(self.value).is_lt()
    }
}

/// Where the pairs of a value end: before it stand those of lesser values and of this one.
#[derive(Drop)]
pub(crate) struct End<'a> {
    pub(crate) value: &'a Value,
}

impl<'a> Edge<Dot> for End<'a> {
    ghost in_front = { λ edge r. is_within (val_of edge.value.now) r };

    fn passes(&self, dot: &Dot) -> bool {
        !dot.compare_value(self.value).is_gt()
    }
}
