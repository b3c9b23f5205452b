//! A pass over the rows of a value where others stand behind the table.

ghost use Rattle.std.specs.Prelude.{◌≡◌, ◌∷◌, ◌++◌, [], IfSome, IfNone};
ghost use Rattle.lasp_logset.specs.Whole.{standing};

use super::asked::Asked;
use super::entry::Entry;
use super::near::Hint;
use super::of_value::Near;
use super::rows::TableRow;
use super::standing::next_standing;
use lasp_log::Items;
use std::marker::Model;

/// The rows that are left of a value in a table and then of those that stand behind it, but for those that aren't dead and are known as dead by now; seen as their list.
#[derive(Drop)]
pub struct NearGrown<'a> {
    near: Near<'a>,
    left: Items<'a, Entry>,
    known: Asked<'a>,
    hint: Hint,
}

impl<'a> Model for NearGrown<'a> {
    ghost use Rattle.std.specs.Prelude.{List, ◌++◌};
    ghost use Rattle.model_values.specs.Row.{Row, coded_rows};
    ghost use Rattle.lasp_logset.specs.Whole.{standing};

    ghost Value = { List Row };

    ghost coded = { coded_rows };

    ghost view = { λ a. standing a.known a.near ++ standing a.known a.left };
}

impl<'a> NearGrown<'a> {
    pub(crate) fn of(near: Near<'a>, left: Items<'a, Entry>, known: Asked<'a>) -> NearGrown<'a>
        ensures { result ≡ standing known.entry near.entry ++ standing known.entry left.entry }
    {
        NearGrown {
            near,
            left,
            known,
            hint: Hint::new(),
        }
    }

    /// The next row. It costs what `Near::next` does, and `Asked::stands` for each row.
    pub(crate) fn next(&mut self) -> Option<TableRow<'a>>
        ensures some { IfSome result (λ r. self.old ≡ r ∷ self.new) }
        ensures none { IfNone result (self.old ≡ []) }
    {
        if let Some(row) = next_near(&mut self.near, &self.known, &mut self.hint) {
            return Some(row);
        }
        let entry = next_standing(&mut self.left, &self.known, &mut self.hint)?;
        Some(TableRow::of(entry.name(), entry.is_dead()))
    }
}

/// The next one of the rows of a value that are left and stand.
fn next_near<'a>(near: &mut Near<'a>, known: &Asked<'_>, hint: &mut Hint) -> Option<TableRow<'a>>
    ensures some { IfSome result (λ r. standing known.now near.old ≡ r ∷ standing known.now near.new) }
    ensures none { IfNone result (standing known.now near.old ≡ []) }
    ensures ended { IfNone result (near.new ≡ []) }
{
    while let Some(row) = near.next() {
        if known.stands(hint, row.name(), row.is_dead()) {
            return Some(row);
        }
    }
    None
}
