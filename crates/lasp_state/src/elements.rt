//! A pass over the values of a grow-only set, first to last.

ghost use Rattle.std.specs.Prelude.{◌≡◌, ◌∷◌, [], IfSome, IfNone};
ghost use Rattle.lasp_state.specs.Prelude.{val_of};

use lasp_logset::InOrder;
use lasp_value::Value;
use std::marker::Model;

/// The values that are left of a pass, seen as their list.
#[derive(Drop)]
pub struct Elements<'a> {
    pub(crate) rows: InOrder<'a>,
}

impl<'a> Model for Elements<'a> {
    ghost use Rattle.std.specs.Prelude.{List};
    ghost use Rattle.std.specs.Coded.{coded_list};
    ghost use Rattle.model_values.specs.Value.{Val, coded_val};
    ghost use Rattle.lasp_state.specs.Members.{values_of};

    ghost Value = { List Val };

    ghost coded = { coded_list coded_val };

    ghost view = { λ a. values_of a.rows };
}

impl<'a> Elements<'a> {
    /// The next value, in constant time.
    pub fn next(&mut self) -> Option<&'a Value>
        ensures some { IfSome result (λ v. self.old ≡ val_of v.now ∷ self.new) }
        ensures none { IfNone result (self.old ≡ []) }
    {
        match self.rows.next() {
            Some(row) => Some(row.value()),
            None => None,
        }
    }
}
