//! The product and the intersection of two sets: a loop over pairs of rows.

ghost use Rattle.std.specs.Prelude.{◌≡◌, ◌<◌, ◌≤◌, Err, IfOk, OnOk, length, flat_map};
ghost use Rattle.lasp_setops.specs.Prelude.{join, of_rows, product_set, intersect_set, gives, gives_from, pair_set, pair_set_from, partners, row_limit, AreApart};

use crate::refused::SetRefused;
use crate::row::{add_within, met, paired};
use lasp_logset::{OrSet, Pass, TableRow};
use std::alloc::{AllocError, Global};

/// Each row of the first set with each row of the second: both values as a pair, both tokens, dead where either is.
/// It costs a look-up for each row of the result, of which at most one more is made than may be.
pub fn product_sets(alloc: Global, x: &OrSet, y: &OrSet) -> Result<OrSet, SetRefused>
    ensures ok { IfOk result (λ s. s ≡ product_set x.now y.now) }
    ensures small { IfOk result (λ s. length s ≤ row_limit) }
    ensures too_many { result ≡ Err SetRefused.TooManyRows → row_limit < length (product_set x.now y.now) }
{
    Pairing::Product.of(alloc, x, y)
}

/// Each row of the first set with each row of the second that has its value: the value, both tokens, dead where either is.
/// It costs a pass over the rows of the second set that may have its value for each row of the first, and a look-up for each row of the result, of which at most one more is made than may be.
pub fn intersect_sets(alloc: Global, x: &OrSet, y: &OrSet) -> Result<OrSet, SetRefused>
    ensures ok { IfOk result (λ s. s ≡ intersect_set x.now y.now) }
    ensures small { IfOk result (λ s. length s ≤ row_limit) }
    ensures too_many { result ≡ Err SetRefused.TooManyRows → row_limit < length (intersect_set x.now y.now) }
{
    Pairing::Intersection.of(alloc, x, y)
}

/// What is made of two sets, row by row.
#[derive(Clone, Copy)]
pub enum Pairing {
    /// Of each row with each row.
    Product,
    /// Of each row with each row of its value.
    Intersection,
}

/// Which of the two sets is gone through row by row.
#[derive(Clone, Copy)]
pub(crate) enum Side {
    First,
    Second,
}

impl Pairing {
    pub(crate) fn of(self, alloc: Global, x: &OrSet, y: &OrSet) -> Result<OrSet, SetRefused>
        ensures ok { IfOk result (λ s. s ≡ pair_set self x.now y.now) }
        ensures small { IfOk result (λ s. length s ≤ row_limit) }
        ensures too_many { result ≡ Err SetRefused.TooManyRows → row_limit < length (pair_set self x.now y.now) }
    {
        let mut out = x.empty();
        self.add(alloc, &mut out, Side::First, x, y)?;
        Ok(out)
    }

    /// Joins in what is made of the set on that side and of the other. It costs a pass over the partners of each row of the set, and a look-up for each row that they make.
    pub(crate) fn add(
        self,
        alloc: Global,
        out: &mut OrSet,
        side: Side,
        set: &OrSet,
        other: &OrSet,
    ) -> Result<(), SetRefused>
        requires { length out.old ≤ row_limit }
        ensures ok { OnOk result (out.new ≡ join out.old (pair_set_from self side set.now other.now)) }
        ensures small { OnOk result (length out.new ≤ row_limit) }
        ensures too_many { result ≡ Err SetRefused.TooManyRows → row_limit < length (join out.old (pair_set_from self side set.now other.now)) }
    {
        out.ascends();
        let mut rows = set.entries()?;
        while let Some(row) = rows.next() {
            self.add_row(alloc, out, side, &row, other)?;
        }
        Ok(())
    }

    /// Joins in what a row makes with those of the other set.
    fn add_row(
        self,
        alloc: Global,
        out: &mut OrSet,
        side: Side,
        row: &TableRow,
        other: &OrSet,
    ) -> Result<(), SetRefused>
        requires { length out.old ≤ row_limit }
        ensures ok { OnOk result (out.new ≡ join out.old (flat_map (gives_from self side row.now) other.now)) }
        ensures small { OnOk result (length out.new ≤ row_limit) }
        ensures too_many { result ≡ Err SetRefused.TooManyRows → row_limit < length (join out.old (flat_map (gives_from self side row.now) other.now)) }
    {
        out.ascends();
        let mut partners = self.partners(row, other)?;
        while let Some(partner) = partners.next() {
            self.add_pair(alloc, out, side, row, &partner)?;
        }
        Ok(())
    }

    /// A pass over rows among which are all that a row makes any with.
    fn partners<'a>(self, row: &'a TableRow, other: &'a OrSet) -> Result<Pass<'a>, AllocError>
        ensures rows { IfOk result (λ rows. partners self row.now (of_rows rows) ≡ partners self row.now other.now) }
        ensures apart { IfOk result (λ rows. AreApart rows) }
    {
        match self {
            Pairing::Product => other.entries(),
            Pairing::Intersection => other.entries_near(row.value()),
        }
    }

    /// Joins in what a row makes with one of the other set, if anything.
    fn add_pair(
        self,
        alloc: Global,
        out: &mut OrSet,
        side: Side,
        row: &TableRow,
        other: &TableRow,
    ) -> Result<(), SetRefused>
        requires { length out.old ≤ row_limit }
        ensures ok { OnOk result (out.new ≡ join out.old (gives_from self side row.now other.now)) }
        ensures small { OnOk result (length out.new ≤ row_limit) }
        ensures too_many { result ≡ Err SetRefused.TooManyRows → row_limit < length (join out.old (gives_from self side row.now other.now)) }
    {
        match side {
            Side::First => self.add_made(alloc, out, row, other),
            Side::Second => self.add_made(alloc, out, other, row),
        }
    }

    /// Joins in what a row of the first set and one of the second make, if anything.
    fn add_made(
        self,
        alloc: Global,
        out: &mut OrSet,
        first: &TableRow,
        second: &TableRow,
    ) -> Result<(), SetRefused>
        requires { length out.old ≤ row_limit }
        ensures ok { OnOk result (out.new ≡ join out.old (gives self first.now second.now)) }
        ensures small { OnOk result (length out.new ≤ row_limit) }
        ensures too_many { result ≡ Err SetRefused.TooManyRows → row_limit < length (join out.old (gives self first.now second.now)) }
    {
        out.ascends();
        let made = match self {
            Pairing::Product => paired(alloc, first, second)?,
            Pairing::Intersection if second.is_of(first.value()) => met(alloc, first, second)?,
            Pairing::Intersection => return Ok(()),
        };
        add_within(out, made)
    }
}
