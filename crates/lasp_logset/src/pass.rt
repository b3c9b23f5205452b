//! A pass over the rows of a set, in any order.

ghost use Rattle.std.specs.Prelude.{◌≡◌, ◌∷◌, [], IfSome, IfNone};
ghost use Rattle.lasp_logset.specs.Whole.{standing};

use super::asked::Asked;
use super::entry::Entry;
use super::near_grown::NearGrown;
use super::of_value::Near;
use super::rows::{Rows, TableRow};
use super::standing::Standing;
use lasp_log::Items;
use std::marker::Model;

/// The rows that are left of a pass, seen as their list.
#[derive(Drop)]
pub struct Pass<'a> {
    left: Left<'a>,
}

/// Where the rows stand.
#[derive(Drop)]
enum Left<'a> {
    Table(Rows<'a>),
    Log(Items<'a, Entry>),
    Standing(Standing<'a>),
    Near(Near<'a>),
    Grown(NearGrown<'a>),
}

impl<'a> Model for Pass<'a> {
    ghost use Rattle.std.specs.Prelude.{List};
    ghost use Rattle.model_values.specs.Row.{Row, coded_rows};
    ghost use Rattle.lasp_logset.specs.Passes.{left_of};

    ghost Value = { List Row };

    ghost coded = { coded_rows };

    ghost view = { λ a. left_of a.left };
}

impl<'a> Pass<'a> {
    pub(crate) fn of_table(left: Rows<'a>) -> Pass<'a>
        ensures { result ≡ left.entry }
    {
        Pass {
            left: Left::Table(left),
        }
    }

    pub(crate) fn of_log(left: Items<'a, Entry>) -> Pass<'a>
        ensures { result ≡ left.entry }
    {
        Pass {
            left: Left::Log(left),
        }
    }

    pub(crate) fn of_standing(left: Items<'a, Entry>, known: Asked<'a>) -> Pass<'a>
        ensures { result ≡ standing known.entry left.entry }
    {
        Pass {
            left: Left::Standing(Standing::of(left, known)),
        }
    }

    pub(crate) fn of_near(left: Near<'a>) -> Pass<'a>
        ensures { result ≡ left.entry }
    {
        Pass {
            left: Left::Near(left),
        }
    }

    pub(crate) fn of_grown(left: NearGrown<'a>) -> Pass<'a>
        ensures { result ≡ left.entry }
    {
        Pass {
            left: Left::Grown(left),
        }
    }

    /// The next row. It costs a step, and in a log some of whose rows died after they had come a look-up for each live row, with a pass over what stands behind the table.
    pub fn next(&mut self) -> Option<TableRow<'a>>
        ensures some { IfSome result (λ r. self.old ≡ r ∷ self.new) }
        ensures none { IfNone result (self.old ≡ []) }
    {
        match &mut self.left {
            Left::Table(left) => left.next(),
            Left::Log(left) => {
                let entry = left.next()?;
                Some(TableRow::of(entry.name(), entry.is_dead()))
            }
            Left::Standing(left) => {
                let entry = left.next()?;
                Some(TableRow::of(entry.name(), entry.is_dead()))
            }
            Left::Near(left) => left.next(),
            Left::Grown(left) => left.next(),
        }
    }
}
