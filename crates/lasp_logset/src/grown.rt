//! A log, with the table of its beginning where one is at hand: what a set becomes that is written while others share its table.

ghost use Rattle.std.specs.Prelude.{◌≡◌, ◌≢◌, ◌↔◌, ◌++◌, ◌∷◌, [], false, IfOk, IfSome, OnOk, OnErr, IsTrue, length, nat_lt};
ghost use Rattle.std.specs.Option.{option_map_or};
ghost use Rattle.std.specs.Arc.{arc_value};
ghost use Rattle.model_sets.specs.Rows.{level, mark, of_rows, join};
ghost use Rattle.model_sets.specs.Equations.{changed};
ghost use Rattle.model_sets.specs.Rises.{AreRises, AreApart};
ghost use Rattle.lasp_logset.specs.Grown.{IsBegun};

use super::changes::Changes;
use super::entry::Entry;
use super::name::Name;
use super::near::{Hint, is_less};
use super::pass::Pass;
use super::passes::is_raised;
use super::past::Past;
use super::set::LogSet;
use lasp_log::Items;
use std::alloc::{AllocError, Global};
use std::marker::Model;
use std::sync::Arc;

/// How many changes are better found by a pass than by a table.
pub(crate) const SHORT: u64 = 12;

/// A log that may begin as that of a table does which others share, seen as the log.
#[derive(Drop)]
pub(crate) struct Grown {
    begin: Option<Arc<LogSet>>,
    past: Past,
}

impl Model for Grown {
    ghost use Rattle.std.specs.Prelude.{List, []};
    ghost use Rattle.std.specs.Option.{option_map_or};
    ghost use Rattle.std.specs.Arc.{arc_value};
    ghost use Rattle.model_values.specs.Row.{Row, coded_rows};
    ghost use Rattle.lasp_logset.specs.Grown.{IsBegun};

    ghost Value = { List Row };

    ghost coded = { coded_rows };

    ghost view = { λ a. a.past };

    ghost invariant = { λ a. IsBegun (option_map_or arc_value a.begin []) a.past };
}

impl Grown {
    /// A log alone.
    pub(crate) fn of(past: Past) -> Grown
        ensures { result ≡ past }
    {
        Grown { begin: None, past }
    }

    /// The log of a table.
    pub(crate) fn begin(set: &Arc<LogSet>) -> Result<Grown, AllocError>
        ensures { IfOk result (λ g. g ≡ arc_value set.now) }
    {
        let past = set.past()?;
        let begin = Arc::try_clone(set)?;
        Ok(Grown {
            begin: Some(begin),
            past,
        })
    }

    /// The log of a table with those rows of a pass behind it that tell more, where no two rows of the pass have one key. Each row costs a look-up.
    pub(crate) fn with(set: &Arc<LogSet>, rows: Pass<'_>) -> Result<Grown, AllocError>
        requires { AreApart rows }
        ensures { IfOk result (λ g. g ≡ arc_value set.now ++ changed (arc_value set.now) rows.entry) }
    {
        let past = past_with(set, rows)?;
        let begin = Arc::try_clone(set)?;
        Ok(Grown {
            begin: Some(begin),
            past,
        })
    }

    /// An equal log, which shares the table.
    pub(crate) fn try_clone(&self) -> Result<Grown, AllocError>
        ensures { IfOk result (λ g. g ≡ self.now) }
    {
        let begin = shared(&self.begin)?;
        let past = self.past.try_clone()?;
        Ok(Grown { begin, past })
    }

    /// The log without the table.
    pub(crate) fn past(&self) -> &Past
        ensures { result.now ≡ self.now }
    {
        &self.past
    }

    /// The table, if there is one, and what stands behind it.
    pub(crate) fn parts(&self) -> (&Option<Arc<LogSet>>, Items<'_, Entry>)
        ensures whole { option_map_or arc_value result.0.now [] ++ result.1 ≡ self.now }
        ensures rises { AreRises (option_map_or arc_value result.0.now []) result.1 }
    {
        self.past.rises();
        let behind = self.past.since(begun(&self.begin) as usize);
        (&self.begin, behind)
    }

    /// The allocator that the set was made with.
    pub(crate) fn allocator(&self) -> Global {
        self.past.allocator()
    }

    /// Whether so few changes stand behind the table, with so many more, that passes find them best.
    pub(crate) fn is_short(&self, more: u64) -> bool {
        let behind = self.past.version() - begun(&self.begin);
        behind < SHORT && more < SHORT
    }

    /// Whether so many keys are better asked for here than in a table that is made of the log: any number where little stands behind a table, few where there is none.
    pub(crate) fn is_asked(&self, keys: u64) -> bool {
        self.is_short(0) && (self.begin.is_some() || keys < SHORT)
    }

    /// Whether a row of this key tells more than the log. It costs a look-up and a pass over what stands behind the table.
    pub(crate) fn raises(&self, name: &Name, dead: bool) -> bool
        ensures { result ≡ nat_lt (mark self.now name.now.0 name.now.1) (level dead) }
    {
        let mut hint = Hint::new();
        self.raises_near(&mut hint, name, dead)
    }

    /// The same, along with a log.
    pub(crate) fn raises_near(&self, hint: &mut Hint, name: &Name, dead: bool) -> bool
        ensures { result ≡ nat_lt (mark self.now name.now.0 name.now.1) (level dead) }
    {
        match &self.begin {
            Some(set) => raises_behind(set, &self.past, hint, name, dead),
            None => is_raised(self.past.iter(), name, dead),
        }
    }

    /// Whether each row of a log is known, and dead where it is dead there. It costs what `raises_near` does for each, up to the first that is lacking.
    pub(crate) fn covers(&self, log: &Changes) -> bool
        ensures { IsTrue result ↔ (changed self.now log.now.items ≡ []) }
    {
        let mut hint = Hint::new();
        let mut left = log.iter();
        while let Some(entry) = left.next() {
            if self.raises_near(&mut hint, entry.name(), entry.is_dead()) {
                return false;
            }
        }
        true
    }

    /// Puts a row behind the log, where it tells more. It costs two look-ups, and two passes over what stands behind the table.
    pub(crate) fn add(&mut self, entry: Entry) -> Result<(), AllocError>
        ensures ok { OnOk result (self.new ≡ self.old ++ changed self.old (entry ∷ [])) }
        ensures err { OnErr result (self.new ≡ self.old) }
    {
        if !self.raises(entry.name(), entry.is_dead()) {
            return Ok(());
        }
        let is_fresh = self.raises(entry.name(), false);
        self.past.push(entry, is_fresh)?;
        Ok(())
    }

    /// The number of changes.
    fn version(&self) -> u64
        ensures { result ≡ length self.now }
    {
        self.past.version()
    }

    /// What it becomes by the rows of another log, put in one by one, and whether that tells more.
    pub(crate) fn joined(&self, log: &Changes) -> Result<(Grown, bool), AllocError>
        ensures rows { IfOk result (λ p. of_rows p.0 ≡ join (of_rows self.now) (of_rows log.now.items)) }
        ensures grew { IfOk result (λ p. IsTrue p.1 ↔ (of_rows p.0 ≢ of_rows self.now)) }
    {
        let mut all = self.try_clone()?;
        let mut left = log.iter();
        while let Some(entry) = left.next() {
            all.add(entry.try_clone()?)?;
        }
        let before = self.version();
        let after = all.version();
        Ok((all, before < after))
    }

    /// The table with what stands behind it put in, where no one else has it by now. Where others have it and much stands behind it, a table of its own, and a long log without a table gets one too.
    pub(crate) fn gathered(&mut self) -> Option<Arc<LogSet>>
        ensures same { self.new ≡ self.old }
        ensures some { IfSome result (λ set. arc_value set ≡ self.old) }
    {
        gather_begin(&mut self.begin, &self.past)
    }
}

/// The log of a table with those rows of a pass behind it that tell more.
fn past_with(set: &LogSet, rows: Pass<'_>) -> Result<Past, AllocError>
    requires { AreApart rows }
    ensures { IfOk result (λ p. p ≡ set.now ++ changed set.now rows.entry) }
{
    let mut past = set.past()?;
    let mut hint = Hint::new();
    let mut left = rows;
    while let Some(row) = left.next() {
        let level = set.level_near(&mut hint, row.name());
        if is_less(level, row.is_dead()) {
            let entry = row.entry()?;
            past.push(entry, level == 0)?;
        }
    }
    past.seal();
    Ok(past)
}

/// Whether a row of this key tells more than a log that begins as that of a table.
fn raises_behind(set: &LogSet, past: &Past, hint: &mut Hint, name: &Name, dead: bool) -> bool
    requires { IsBegun set.now past.now }
    ensures { result ≡ nat_lt (mark past.now name.now.0 name.now.1) (level dead) }
{
    if !set.lacks_near(hint, name, dead) {
        return false;
    }
    let behind = past.since(set.version() as usize);
    is_raised(behind, name, dead)
}

/// A share of a table, if there is one.
fn shared(begin: &Option<Arc<LogSet>>) -> Result<Option<Arc<LogSet>>, AllocError>
    ensures { IfOk result (λ b. option_map_or arc_value b [] ≡ option_map_or arc_value begin.now []) }
{
    match begin {
        Some(set) => Ok(Some(Arc::try_clone(set)?)),
        None => Ok(None),
    }
}

/// The number of a table's changes.
fn begun(begin: &Option<Arc<LogSet>>) -> u64
    ensures { result ≡ length (option_map_or arc_value begin.now []) }
{
    match begin {
        Some(set) => set.version(),
        None => 0,
    }
}

/// Takes the table out with what stands behind it put in, where no one else has it. A log that is long, or long behind a table that others have, gets one of its own.
fn gather_begin(begin: &mut Option<Arc<LogSet>>, past: &Past) -> Option<Arc<LogSet>>
    requires { IsBegun (option_map_or arc_value begin.old []) past.now }
    ensures begun { IsBegun (option_map_or arc_value begin.new []) past.now }
    ensures some { IfSome result (λ set. arc_value set ≡ past.now) }
{
    match begin.take() {
        Some(mut set) => {
            if gather_into(&mut set, past) {
                return Some(set);
            }
            let own = table_behind(&set, past);
            if own.is_none() {
                *begin = Some(set);
            }
            own
        }
        None => table_of_long(past),
    }
}

/// A table of a log that begins as that of another table, unless little stands behind that or memory is refused.
fn table_behind(begin: &LogSet, past: &Past) -> Option<Arc<LogSet>>
    ensures { IfSome result (λ set. arc_value set ≡ past.now) }
{
    if past.version().saturating_sub(begin.version()) < SHORT {
        return None;
    }
    table_of_long(past)
}

/// A table of a log, unless that is short or memory is refused.
fn table_of_long(past: &Past) -> Option<Arc<LogSet>>
    ensures { IfSome result (λ set. arc_value set ≡ past.now) }
{
    if past.version() < SHORT {
        return None;
    }
    match shared_table(past) {
        Ok(set) => Some(set),
        Err(_) => None,
    }
}

/// A table of a log, to be shared. It costs an insertion for each change.
fn shared_table(past: &Past) -> Result<Arc<LogSet>, AllocError>
    ensures { IfOk result (λ set. arc_value set ≡ past.now) }
{
    let set = past.whole()?;
    Ok(Arc::new(past.allocator(), set)?)
}

/// Puts what stands behind a table into it, where no one else has it; whether it did.
fn gather_into(shared: &mut Arc<LogSet>, past: &Past) -> bool
    requires { IsBegun (arc_value shared.old) past.now }
    ensures some { IsTrue result → arc_value shared.new ≡ past.now }
    ensures none { result ≡ false → arc_value shared.new ≡ arc_value shared.old }
{
    let Some(set) = Arc::get_mut(shared) else {
        return false;
    };
    past.rises();
    let behind = past.since(set.version() as usize);
    match set.put_behind(behind) {
        Ok(()) => true,
        Err(_) => false,
    }
}
