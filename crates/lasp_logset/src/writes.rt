//! The order of sets, and how rows come in.

ghost use Rattle.std.specs.Prelude.{◌≡◌, ◌≢◌, ◌↔◌, [], IfOk, OnOk, OnErr, IsTrue};
ghost use Rattle.std.specs.Arc.{arc_value};
ghost use Rattle.model_sets.specs.Rows.{IsAtMost, of_rows, put, join};
ghost use Rattle.lasp_logset.specs.Whole.{log_in, log_behind};

use super::entry::Entry;
use super::grown::Grown;
use super::orset::{Kept, OrSet};
use super::passes::brings_nothing_to;
use super::set::LogSet;
use std::alloc::AllocError;
use std::sync::Arc;

impl OrSet {
    /// The order: each row of this set is in the other one, and is dead there if it is dead here. Each row of this one's log costs a look-up; it costs nothing where this set has more rows. Where the other set has no table one is made, and where memory for that is refused, each row costs a pass.
    pub fn le(&self, other: &OrSet) -> bool
        ensures { IsTrue result ↔ IsAtMost self.now other.now }
    {
        self.ascends();
        other.ascends();
        if self.rows() > other.rows() {
            return false;
        }
        let log = self.log();
        match other.asked(log.len() as u64) {
            Ok(asked) => asked.covers(log),
            Err(_) => brings_nothing_to(other.log(), log),
        }
    }

    /// Joins another set in, and tells whether this made a difference. Each of the other set's changes costs a look-up, and each new row another one; where there is a table and they bring nothing new it takes no memory. A set without rows shares the other one's, and one without rows costs nothing to join in.
    /// Where others share the table, what is new goes behind it; where there is none, and either log is long, one is made.
    pub fn join_in(&mut self, other: &OrSet) -> Result<bool, AllocError>
        ensures ok { OnOk result (self.new ≡ join self.old other.now) }
        ensures grew { IfOk result (λ grew. IsTrue grew ↔ (self.new ≢ self.old)) }
        ensures err { OnErr result (self.new ≡ self.old) }
    {
        self.ascends();
        if other.rows() == 0 {
            return Ok(false);
        }
        if self.rows() == 0 {
            return self.take_all(other);
        }
        let grew = join_kept(&mut self.kept, other)?;
        Ok(grew)
    }

    /// Becomes a share of the other set.
    fn take_all(&mut self, other: &OrSet) -> Result<bool, AllocError>
        requires { self.old ≡ [] }
        ensures ok { OnOk result (self.new ≡ join self.old other.now) }
        ensures grew { IfOk result (λ grew. IsTrue grew ↔ (self.new ≢ self.old)) }
        ensures err { OnErr result (self.new ≡ self.old) }
    {
        other.ascends();
        *self = other.try_clone()?;
        Ok(other.rows() > 0)
    }

    /// Puts a row in, or makes the row of its key dead where it is. It costs two look-ups. Where others share the table it goes behind that, with passes over what stands there already, and once that is long a table is made of all.
    pub fn add(&mut self, entry: Entry) -> Result<(), AllocError>
        ensures ok { OnOk result (self.new ≡ put entry self.old) }
        ensures err { OnErr result (self.new ≡ self.old) }
    {
        add_kept(&mut self.kept, entry)
    }
}

/// Joins a set into what is kept of one.
fn join_kept(kept: &mut Kept, other: &OrSet) -> Result<bool, AllocError>
    ensures ok { OnOk result (of_rows (log_in kept.new) ≡ join (of_rows (log_in kept.old)) other.now) }
    ensures grew { IfOk result (λ grew. IsTrue grew ↔ (of_rows (log_in kept.new) ≢ of_rows (log_in kept.old))) }
    ensures err { OnErr result (of_rows (log_in kept.new) ≡ of_rows (log_in kept.old)) }
{
    match kept {
        Kept::Whole(set) => {
            let (behind, grew) = join_shared(set, other)?;
            match behind {
                Some(grown) => {
                    *kept = Kept::Past(grown);
                    Ok(grew)
                }
                None => Ok(grew),
            }
        }
        Kept::Past(grown) => {
            let log = other.log();
            if grown.is_short(log.len() as u64) {
                let (all, grew) = grown.joined(log)?;
                *kept = Kept::Past(all);
                return Ok(grew);
            }
            let alloc = grown.allocator();
            let mut set = grown.past().whole()?;
            let grew = set.join_log(log)?;
            *kept = Kept::Whole(Arc::new(alloc, set)?);
            Ok(grew)
        }
    }
}

/// Joins a set into one with a table: in place where no one else has that, else behind it if something is new. It answers what stands behind it then, and whether something was new.
fn join_shared(shared: &mut Arc<LogSet>, other: &OrSet) -> Result<(Option<Grown>, bool), AllocError>
    ensures ok { IfOk result (λ p. of_rows (log_behind (arc_value shared.new) p.0) ≡ join (of_rows (arc_value shared.old)) other.now) }
    ensures grew { IfOk result (λ p. IsTrue p.1 ↔ (of_rows (log_behind (arc_value shared.new) p.0) ≢ of_rows (arc_value shared.old))) }
    ensures err { OnErr result (of_rows (arc_value shared.new) ≡ of_rows (arc_value shared.old)) }
{
    let log = other.log();
    if let Some(set) = Arc::get_mut(shared) {
        let grew = set.join_log(log)?;
        return Ok((None, grew));
    }
    if shared.covers(log) {
        return Ok((None, false));
    }
    let rows = other.entries()?;
    let grown = Grown::with(shared, rows)?;
    Ok((Some(grown), true))
}

/// Puts a row into what is kept of a set.
fn add_kept(kept: &mut Kept, entry: Entry) -> Result<(), AllocError>
    ensures ok { OnOk result (of_rows (log_in kept.new) ≡ put entry (of_rows (log_in kept.old))) }
    ensures err { OnErr result (of_rows (log_in kept.new) ≡ of_rows (log_in kept.old)) }
{
    match kept {
        Kept::Whole(set) => {
            let behind = add_shared(set, entry)?;
            match behind {
                Some(grown) => {
                    *kept = Kept::Past(grown);
                    Ok(())
                }
                None => Ok(()),
            }
        }
        Kept::Past(grown) => {
            if grown.is_short(1) {
                return grown.add(entry);
            }
            let alloc = grown.allocator();
            let mut set = grown.past().whole()?;
            set.add(entry)?;
            *kept = Kept::Whole(Arc::new(alloc, set)?);
            Ok(())
        }
    }
}

/// Puts a row into a set with a table: in place where no one else has that, else behind it if it tells more. It answers what stands behind it then.
fn add_shared(shared: &mut Arc<LogSet>, entry: Entry) -> Result<Option<Grown>, AllocError>
    ensures ok { IfOk result (λ behind. of_rows (log_behind (arc_value shared.new) behind) ≡ put entry (of_rows (arc_value shared.old))) }
    ensures err { OnErr result (of_rows (arc_value shared.new) ≡ of_rows (arc_value shared.old)) }
{
    if let Some(set) = Arc::get_mut(shared) {
        set.add(entry)?;
        return Ok(None);
    }
    if !shared.raises(&entry) {
        return Ok(None);
    }
    let mut grown = Grown::begin(shared)?;
    grown.add(entry)?;
    Ok(Some(grown))
}
