//! A pass over the rows of a set in order.

ghost use Rattle.std.specs.Prelude.{◌≡◌, ◌∷◌, [], IfOk, IfSome, IfNone};

use super::orset::OrSet;
use super::rows::TableRow;
use std::alloc::AllocError;
use std::marker::Model;
use std::vec::IntoIter;

/// The rows that are left of a pass, ascending by value and then by token; seen as their list.
#[derive(Drop)]
pub struct InOrder<'a> {
    left: IntoIter<TableRow<'a>>,
}

impl<'a> Model for InOrder<'a> {
    ghost use Rattle.std.specs.Prelude.{List};
    ghost use Rattle.std.specs.Vec.Iter.{into_iter_items};
    ghost use Rattle.model_values.specs.Row.{Row, coded_rows};

    ghost Value = { List Row };

    ghost coded = { coded_rows };

    ghost view = { λ a. into_iter_items a.left };
}

impl<'a> InOrder<'a> {
    /// The next row, in constant time.
    pub fn next(&mut self) -> Option<TableRow<'a>>
        ensures some { IfSome result (λ r. self.old ≡ r ∷ self.new) }
        ensures none { IfNone result (self.old ≡ []) }
    {
        self.left.next()
    }
}

impl OrSet {
    /// A pass over the rows, ascending by value and then by token. It costs what `sorted` does.
    pub fn in_order(&self) -> Result<InOrder<'_>, AllocError>
        ensures { IfOk result (λ rows. rows ≡ self.now) }
    {
        Ok(InOrder {
            left: self.sorted()?.into_iter(),
        })
    }
}
