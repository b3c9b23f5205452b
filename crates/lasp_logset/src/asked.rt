//! What answers for the keys of a set.

ghost use Rattle.std.specs.Prelude.{◌≡◌, ◌↔◌, IsTrue, IfOk, nat_lt};
ghost use Rattle.std.specs.Arc.{arc_value};
ghost use Rattle.model_sets.specs.Rows.{level, mark, of_rows, IsAtMost};
ghost use Rattle.lasp_logset.specs.Whole.{stands};

use super::changes::Changes;
use super::grown::Grown;
use super::name::Name;
use super::near::Hint;
use super::orset::{Kept, OrSet};
use super::set::LogSet;
use std::alloc::AllocError;
use std::marker::Model;
use std::sync::Arc;

/// A table, or a short log behind one that others share, seen as the log that it knows.
#[derive(Drop)]
pub(crate) struct Asked<'a> {
    by: By<'a>,
}

/// What is asked.
#[derive(Drop)]
pub(crate) enum By<'a> {
    Table(Arc<LogSet>),
    Behind(&'a Grown),
}

impl<'a> Model for Asked<'a> {
    ghost use Rattle.std.specs.Prelude.{List};
    ghost use Rattle.model_values.specs.Row.{Row, coded_rows};
    ghost use Rattle.lasp_logset.specs.Asked.{asked_of};

    ghost Value = { List Row };

    ghost coded = { coded_rows };

    ghost view = { λ a. asked_of a.by };
}

impl<'a> Asked<'a> {
    fn table(set: Arc<LogSet>) -> Asked<'a>
        ensures { result ≡ arc_value set }
    {
        Asked { by: By::Table(set) }
    }

    pub(crate) fn behind(grown: &'a Grown) -> Asked<'a>
        ensures { result ≡ grown.now }
    {
        Asked {
            by: By::Behind(grown),
        }
    }

    /// Whether a row tells more than what is asked, along with a log. It costs a look-up, and a pass over a short log behind the table.
    pub(crate) fn lacks_near(&self, hint: &mut Hint, name: &Name, dead: bool) -> bool
        ensures { result ≡ nat_lt (mark self.now name.now.0 name.now.1) (level dead) }
    {
        match &self.by {
            By::Table(set) => set.lacks_near(hint, name, dead),
            By::Behind(grown) => grown.raises_near(hint, name, dead),
        }
    }

    /// Whether a row of a log, of which this is what is known, is the last of its key: a dead one, or one that isn't known as dead. It costs what `lacks_near` does where it isn't dead.
    pub(crate) fn stands(&self, hint: &mut Hint, name: &Name, dead: bool) -> bool
        ensures { result ≡ stands self.now (name.now, dead) }
    {
        dead || self.lacks_near(hint, name, true)
    }

    /// Whether each row of a log is known, and dead where it is dead there. It costs what `lacks_near` does for each, up to the first that is lacking.
    pub(crate) fn covers(&self, log: &Changes) -> bool
        ensures { IsTrue result ↔ IsAtMost log.now.items self.now }
    {
        match &self.by {
            By::Table(set) => set.covers(log),
            By::Behind(grown) => grown.covers(log),
        }
    }
}

impl OrSet {
    /// What answers for the set's keys, where so many are asked for. It costs a share, and where the log is long, or long behind a table, or many are asked for and there is no table, an insertion for each change.
    pub(crate) fn asked(&self, keys: u64) -> Result<Asked<'_>, AllocError>
        ensures { IfOk result (λ asked. of_rows asked ≡ self.now) }
    {
        if let Kept::Past(grown) = &self.kept {
            if grown.is_asked(keys) {
                return Ok(Asked::behind(grown));
            }
        }
        Ok(Asked::table(self.table()?))
    }
}
