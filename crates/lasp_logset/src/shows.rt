//! What a set shows, and passes over its rows.

ghost use Rattle.std.specs.Prelude.{◌≡◌, ◌≤◌, ◌^◌, ◌+◌, ◌↔◌, ◌++◌, [], IfOk, OnOk, IsTrue, length, string_bytes, filter};
ghost use Rattle.model_values.specs.Text.{shown_values};
ghost use Rattle.model_sets.specs.Rows.{of_rows, join, is_of};
ghost use Rattle.model_sets.specs.Rises.{AreRises, AreApart};
ghost use Rattle.model_sets.specs.Reads.{HasRowOf};
ghost use Rattle.model_sets.specs.Values.{IsHeld, visible};
ghost use Rattle.model_sets.specs.Loops.{collapse, new_rows};
ghost use Rattle.lasp_value.specs.Value.{val_of};

use super::asked::Asked;
use super::changes::Changes;
use super::entry::Entry;
use super::near::Hint;
use super::orset::{Kept, OrSet};
use super::pass::Pass;
use super::passes::{count_more, has_live_in};
use super::rows::TableRow;
use super::shown::{copies, print_all};
use lasp_value::{Value, Values};
use std::alloc::{AllocError, Global};

impl OrSet {
    /// A pass over the rows in any order, each key once. It takes no memory but where the log is long, or long behind a table, and a row of it died after it had come: there a table is made.
    pub fn entries(&self) -> Result<Pass<'_>, AllocError>
        ensures rows { IfOk result (λ rows. of_rows rows ≡ self.now) }
        ensures apart { IfOk result (λ rows. AreApart rows) }
    {
        match &self.kept {
            Kept::Whole(set) => Ok(Pass::of_table(set.iter())),
            Kept::Past(grown) => {
                let past = grown.past();
                if past.rows() == past.version() {
                    return Ok(Pass::of_log(past.log().iter()));
                }
                self.standing()
            }
        }
    }

    /// Whether its log is kept with a table, or has no key twice: then `entries` makes no table.
    pub(crate) fn has_each_once(&self) -> bool {
        match &self.kept {
            Kept::Whole(_) => true,
            Kept::Past(grown) => grown.past().rows() == grown.past().version(),
        }
    }

    /// A pass as `entries` over rows among which are all those of a value. With a table it is these alone, with those behind it where others share it, and costs a step for each row that came since `index_rows` and for each of the value's hash.
    pub fn entries_near<'a>(&'a self, value: &'a Value) -> Result<Pass<'a>, AllocError>
        ensures rows { IfOk result (λ rows. filter (is_of (val_of value.now)) (of_rows rows) ≡ filter (is_of (val_of value.now)) self.now) }
        ensures apart { IfOk result (λ rows. AreApart rows) }
    {
        match &self.kept {
            Kept::Whole(set) => Ok(Pass::of_near(set.near(value))),
            Kept::Past(grown) => match grown.near(value) {
                Some(near) => Ok(Pass::of_grown(near)),
                None => self.entries(),
            },
        }
    }

    /// A pass over the log that leaves out what died later.
    fn standing(&self) -> Result<Pass<'_>, AllocError>
        ensures rows { IfOk result (λ rows. of_rows rows ≡ self.now) }
        ensures apart { IfOk result (λ rows. AreApart rows) }
    {
        let log = self.log();
        let known = self.asked(log.len() as u64)?;
        Ok(Pass::of_standing(log.iter(), known))
    }

    /// A pass over the rows in any order, where a row that died after it had come may be passed twice, first as it was. It takes no memory.
    #[tactic(auto, using(crate::proofs::WholeLaws::passes))]
    pub fn iter(&self) -> Pass<'_>
        ensures rows { of_rows result ≡ self.now }
        ensures rises { AreRises [] result }
    {
        match &self.kept {
            Kept::Whole(set) => Pass::of_table(set.iter()),
            Kept::Past(grown) => Pass::of_log(grown.past().log().iter()),
        }
    }

    /// The rows, ascending by value and then by token. It takes memory for a pointer to each change, and sorts these.
    pub fn sorted(&self) -> Result<Vec<TableRow<'_>>, AllocError>
        ensures { IfOk result (λ rows. rows.items ≡ self.now) }
    {
        match &self.kept {
            Kept::Whole(set) => set.sorted(),
            Kept::Past(grown) => {
                collapsed(grown.allocator(), sorted_changes(grown.past().log())?)
            }
        }
    }

    /// Whether the value has a live row. It costs two look-ups, and a pass over the rows that came since the table's values were indexed; where there is no table one is made.
    pub fn has(&self, value: &Value) -> bool
        ensures { IsTrue result ↔ IsHeld (visible self.now) (val_of value.now) }
    {
        match self.table() {
            Ok(set) => set.has(value),
            Err(_) => has_live_in(self.log(), value),
        }
    }

    /// Whether the value has a row, and a dead one where `dead` is true. With a table it costs two look-ups, the value's rows, and a pass over the rows that came since `index_rows` or stand behind the table; without one, a pass over the changes.
    pub fn has_row(&self, value: &Value, dead: bool) -> bool
        ensures { IsTrue result ↔ HasRowOf self.now (val_of value.now) dead }
    {
        match &self.kept {
            Kept::Whole(set) => set.has_row(value, dead),
            Kept::Past(grown) => grown.has_row(value, dead),
        }
    }

    /// The values with a live row, ascending, each once. It costs what `print_into` does, and a copy of each.
    pub fn visible(&self) -> Result<Values, AllocError>
        ensures { IfOk result (λ values. values ≡ visible self.now) }
    {
        let shown = self.shown()?;
        copies(self.allocator(), shown.as_slice())
    }

    /// Appends the visible values as a JSON array. It copies no value. With a table it costs a comparison for each live row, and where their values don't ascend in the order in which they came, a sort of those that differ from the one before; without one, what `sorted` does. After want of memory a part may have been appended.
    pub fn print_into(&self, out: &mut String) -> Result<(), AllocError>
        ensures { OnOk result (string_bytes out.new ≡ string_bytes out.old ++ shown_values (visible self.now)) }
    {
        let shown = self.shown()?;
        print_all(shown.as_slice(), out)
    }

    /// The number of rows that the join with another set has, dead ones counted. Where one of both has no rows it costs nothing. Else each row of one of them costs a look-up in the other one: of two with tables, each of the smaller one. It takes no memory where that other one has a table, but where `entries` of the first does.
    pub fn joined_rows(&self, other: &OrSet) -> u64
        ensures { result ≡ length (join self.now other.now) }
    {
        self.ascends();
        other.ascends();
        if other.rows() == 0 {
            return self.rows();
        }
        if self.rows() == 0 {
            return other.rows();
        }
        if self.is_asked(other) {
            joined_count(self, other)
        } else {
            joined_count(other, self)
        }
    }

    /// Whether the rows of another set are better looked up in this one than the other way round.
    fn is_asked(&self, other: &OrSet) -> bool {
        match (&self.kept, &other.kept) {
            (Kept::Whole(_), Kept::Past(_)) => true,
            (Kept::Past(_), Kept::Whole(_)) => false,
            (_, _) => self.rows() >= other.rows(),
        }
    }
}

/// The number of rows of the join of two sets, by looking those of the second up in the first.
fn joined_count(set: &OrSet, other: &OrSet) -> u64
    ensures { result ≡ length (join set.now other.now) }
{
    set.ascends();
    let _rows = other.rows();
    let log = other.log();
    match (set.asked(log.len() as u64), other.entries()) {
        (Ok(asked), Ok(rows)) => set.rows() + count_lacking(&asked, rows),
        (_, _) => set.rows() + count_more(set.log(), log),
    }
}

/// The number of rows of a pass whose key no row of what is asked has.
fn count_lacking(set: &Asked<'_>, rows: Pass<'_>) -> u64
    requires { length rows ≤ 2 ^ 32 }
    ensures exact { result ≡ new_rows set.now rows.entry }
    ensures few { result ≤ length rows.entry }
{
    let mut count = 0u64;
    let mut hint = Hint::new();
    let mut left = rows;
    while let Some(row) = left.next() {
        if set.lacks_near(&mut hint, row.name(), false) {
            count += 1;
        }
    }
    count
}

/// The changes of a log in the order of their keys.
fn sorted_changes(log: &Changes) -> Result<Vec<TableRow<'_>>, AllocError>
    ensures { IfOk result (λ rows. collapse rows.items ≡ of_rows log.now.items) }
{
    let mut sorted = Vec::with_capacity(log.allocator(), log.len())?;
    let mut left = log.iter();
    while let Some(entry) = left.next() {
        sorted.push(TableRow::of(entry.name(), entry.is_dead()))?;
    }
    sorted.sort()?;
    Ok(sorted)
}

/// Rows in the order of their keys, those of one key as one, dead where one of them is.
fn collapsed<'a>(alloc: Global, sorted: Vec<TableRow<'a>>) -> Result<Vec<TableRow<'a>>, AllocError>
    ensures { IfOk result (λ rows. rows.items ≡ collapse sorted.entry.items) }
{
    let mut rows = Vec::with_capacity(alloc, sorted.len())?;
    let mut left = sorted.into_iter();
    let Some(first) = left.next() else {
        return Ok(rows);
    };
    let mut last = first;
    while let Some(row) = left.next() {
        if last == row {
            last = last.united(row.is_dead());
        } else {
            rows.push(last)?;
            last = row;
        }
    }
    rows.push(last)?;
    Ok(rows)
}
