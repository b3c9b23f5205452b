//! The values that came to be visible, or ceased to be, from one set to a greater one: a pass over the rows of a set that has them all, with two look-ups for each value.

ghost use Rattle.std.specs.Prelude.{◌≡◌, ◌∷◌, [], None, IfOk, IfSome, IfNone};
ghost use Rattle.lasp_setops.specs.Prelude.{option_map, IsSized, visible, val_of, is_last, AreSized, values_left, turns};

use super::asked::Asked;
use lasp_logset::{InOrder, OrSet};
use lasp_value::Value;
use std::alloc::AllocError;

/// A value that came to be visible, or ceased to be.
#[derive(Drop)]
pub(crate) struct Turn<'a> {
    pub(crate) value: &'a Value,
    pub(crate) came: bool,
}

/// The rows that are left of the pass, and the value that was looked at last.
#[derive(Drop)]
pub(crate) struct Turns<'a> {
    rows: InOrder<'a>,
    last: Option<&'a Value>,
}

impl<'a> Turns<'a> {
    /// A pass over the rows of a set. It takes memory for a pointer to each, and sorts these.
    pub(crate) fn among(set: &'a OrSet) -> Result<Turns<'a>, AllocError>
        ensures rows { IfOk result (λ turns. turns.rows ≡ set.now) }
        ensures first { IfOk result (λ turns. turns.last ≡ None) }
    {
        Ok(Turns {
            rows: set.in_order()?,
            last: None,
        })
    }

    /// The next value that only one of the sets shows.
    pub(crate) fn next(&mut self, before: &Asked, after: &Asked) -> Option<Turn<'a>>
        requires sized { AreSized self.old.rows }
        ensures some { IfSome result (λ t. turns (visible before.now) (visible after.now) (values_left (option_map (λ v. val_of v.now) self.old.last) self.old.rows) ≡ (val_of t.value.now, t.came) ∷ turns (visible before.now) (visible after.now) (values_left (option_map (λ v. val_of v.now) self.new.last) self.new.rows)) }
        ensures this { IfSome result (λ t. IsSized (val_of t.value.now)) }
        ensures rest { IfSome result (λ t. AreSized self.new.rows) }
        ensures none { IfNone result (turns (visible before.now) (visible after.now) (values_left (option_map (λ v. val_of v.now) self.old.last) self.old.rows) ≡ []) }
    {
        while let Some(row) = self.rows.next() {
            let value = row.value();
            if is_same(self.last, value) {
                continue;
            }
            self.last = Some(value);
            let came = after.has(value);
            if before.has(value) != came {
                return Some(Turn { value, came });
            }
        }
        None
    }
}

/// Whether the value is the one that was looked at last.
pub(crate) fn is_same(last: Option<&Value>, value: &Value) -> bool
    ensures { result ≡ is_last (option_map (λ v. val_of v.now) last.entry) (val_of value.now) }
{
    match last {
        Some(other) => *other == *value,
        None => false,
    }
}
