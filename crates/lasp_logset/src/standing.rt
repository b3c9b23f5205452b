//! A pass over a log that leaves out the rows that died later.

ghost use Rattle.std.specs.Prelude.{◌≡◌, ◌∷◌, [], IfSome, IfNone};
ghost use Rattle.lasp_logset.specs.Whole.{standing};

use super::asked::Asked;
use super::entry::Entry;
use super::near::Hint;
use lasp_log::Items;
use std::marker::Model;

/// Of the rows that are left of a log those that aren't known as dead by now.
#[derive(Drop)]
pub struct Standing<'a> {
    left: Items<'a, Entry>,
    known: Asked<'a>,
    hint: Hint,
}

impl<'a> Model for Standing<'a> {
    ghost use Rattle.std.specs.Prelude.{List};
    ghost use Rattle.model_values.specs.Row.{Row, coded_rows};
    ghost use Rattle.lasp_logset.specs.Whole.{standing};

    ghost Value = { List Row };

    ghost coded = { coded_rows };

    ghost view = { λ a. standing a.known a.left };
}

impl<'a> Standing<'a> {
    pub(crate) fn of(left: Items<'a, Entry>, known: Asked<'a>) -> Standing<'a>
        ensures { result ≡ standing known.entry left.entry }
    {
        Standing {
            left,
            known,
            hint: Hint::new(),
        }
    }

    /// The next row. It costs what `Asked::stands` does for each change.
    pub(crate) fn next(&mut self) -> Option<&'a Entry>
        ensures some { IfSome result (λ r. self.old ≡ r.now ∷ self.new) }
        ensures none { IfNone result (self.old ≡ []) }
    {
        next_standing(&mut self.left, &self.known, &mut self.hint)
    }
}

/// The next one of those that are left of a log and stand.
pub(crate) fn next_standing<'a>(
    left: &mut Items<'a, Entry>,
    known: &Asked<'_>,
    hint: &mut Hint,
) -> Option<&'a Entry>
    ensures some { IfSome result (λ r. standing known.now left.old ≡ r.now ∷ standing known.now left.new) }
    ensures none { IfNone result (standing known.now left.old ≡ []) }
{
    while let Some(entry) = left.next() {
        if known.stands(hint, entry.name(), entry.is_dead()) {
            return Some(entry);
        }
    }
    None
}
