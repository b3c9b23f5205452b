//! A pass over the rows of a set as they are now.

ghost use Rattle.std.specs.Prelude.{◌≡◌, ◌∷◌, ◌||◌, [], true, IfOk, IfSome, IfNone};
ghost use Rattle.std.specs.Ordering.{eq_by_cmp, as_partial_cmp};
ghost use Rattle.std.specs.Cmp.{partial_equiv_from_equiv};
ghost use Rattle.std.proofs.Common.{refl};
ghost use Rattle.model_values.specs.Row.{row_cmp};
ghost use Rattle.model_sets.specs.Rows.{is_of};
ghost use Rattle.lasp_value.specs.Value.{val_of};
ghost use Rattle.lasp_value.specs.Token.{tok_of};
ghost use Rattle.lasp_logset.specs.Orders.{row_total, row_equivalence, row_order};

use super::entry::Entry;
use super::key::compare_values;
use super::name::Name;
use indexmap::map::Iter;
use lasp_value::{Token, Value};
use std::alloc::AllocError;
use std::cmp::Ordering;
use std::marker::Model;

/// A row of a set as it stands in its table.
#[derive(Drop)]
pub struct TableRow<'a> {
    name: &'a Name,
    dead: bool,
}

impl<'a> Model for TableRow<'a> {
    ghost use Rattle.model_values.specs.Row.{Row, coded_row};

    ghost Value = { Row };

    ghost coded = { coded_row };

    ghost view = { λ a. (a.name.now, a.dead) };
}

impl<'a> TableRow<'a> {
    pub(crate) fn of(name: &'a Name, dead: bool) -> TableRow<'a>
        ensures { result ≡ (name.now, dead) }
    {
        TableRow { name, dead }
    }

    /// The value that was added.
    pub fn value(&self) -> &'a Value
        ensures { val_of result.now ≡ self.now.0.0 }
    {
        self.name.value()
    }

    /// The token of this addition.
    pub fn token(&self) -> &'a Token
        ensures { tok_of result.now ≡ self.now.0.1 }
    {
        self.name.token()
    }

    /// Whether the addition was removed.
    pub fn is_dead(&self) -> bool
        ensures { result ≡ self.now.1 }
    {
        self.dead
    }

    /// Whether the row is of a value.
    pub fn is_of(&self, value: &Value) -> bool
        ensures { result ≡ is_of (val_of value.now) self.now }
    {
        compare_values(value, self.value()).is_eq()
    }

    /// The row to be put into another set. It takes no memory.
    pub fn entry(&self) -> Result<Entry, AllocError>
        ensures { IfOk result (λ r. r ≡ self.now) }
    {
        Ok(Entry::of(self.name.share()?, self.dead))
    }

    /// The same row, dead, to be put into another set. It takes no memory.
    pub fn buried(&self) -> Result<Entry, AllocError>
        ensures { IfOk result (λ r. r ≡ (self.now.0, true)) }
    {
        Ok(Entry::of(self.name.share()?, true))
    }

    pub(crate) fn name(&self) -> &'a Name
        ensures { result.now ≡ self.now.0 }
    {
        self.name
    }

    /// The row of its key that is dead where either is.
    pub(crate) fn united(&self, dead: bool) -> TableRow<'a>
        ensures { result ≡ (self.now.0, self.now.1 || dead) }
    {
        TableRow {
            name: self.name,
            dead: self.dead || dead,
        }
    }
}

impl PartialEq for TableRow<'_> {
    ghost eq = { eq_by_cmp row_cmp };

    ghost laws = { partial_equiv_from_equiv row_equivalence };

    fn eq(&self, other: &Self) -> bool {
        self.cmp(other).is_eq()
    }
}

impl Eq for TableRow<'_> {
    ghost laws = { row_equivalence };
}

/// By value, then by token, whether dead or not.
impl Ord for TableRow<'_> {
    ghost cmp = { row_cmp };

    ghost total = { row_total };

    ghost matches_partial_cmp = { λ _ _. refl };

    ghost matches_eq = { λ _ _. refl };

    fn cmp(&self, other: &Self) -> Ordering {
        self.name.compare(other.name)
    }
}

impl PartialOrd for TableRow<'_> {
    ghost partial_cmp = { as_partial_cmp row_cmp };

    ghost laws = { row_order };

    fn partial_cmp(&self, other: &Self) -> Option<Ordering> {
        Some(self.cmp(other))
    }
}

/// The rows that are left of a pass, seen as their list.
#[derive(Drop)]
pub struct Rows<'a> {
    left: Iter<'a, Name, bool>,
}

impl<'a> Model for Rows<'a> {
    ghost use Rattle.std.specs.Prelude.{List};
    ghost use Rattle.model_values.specs.Row.{Row, coded_rows};

    ghost Value = { List Row };

    ghost coded = { coded_rows };

    ghost view = { λ a. a.left };
}

impl<'a> Rows<'a> {
    pub(crate) fn of(left: Iter<'a, Name, bool>) -> Rows<'a>
        ensures { result ≡ left.entry }
    {
        Rows { left }
    }

    /// The next row, in constant time.
    pub fn next(&mut self) -> Option<TableRow<'a>>
        ensures some { IfSome result (λ r. self.old ≡ r ∷ self.new) }
        ensures none { IfNone result (self.old ≡ []) }
    {
        let (name, dead) = self.left.next()?;
        Some(TableRow::of(name, *dead))
    }
}
