//! What makes later calls cheap and changes nothing that is seen.

ghost use Rattle.std.specs.Prelude.{◌≡◌};
ghost use Rattle.std.specs.Arc.{arc_value};
ghost use Rattle.lasp_logset.specs.Whole.{log_in};

use super::orset::{Kept, OrSet};
use super::set::LogSet;
use lasp_value::Value;
use std::sync::Arc;

impl OrSet {
    /// Puts what came behind a table that others shared into it, where no one else has it by now, at a look-up for each of these rows. Where others have it still and much came behind it, the set gets a table of its own, and so does a long log without one, at an insertion for each change.
    pub fn gather(&mut self)
        ensures { self.new ≡ self.old }
    {
        gather_kept(&mut self.kept)
    }

    /// Closes the log, so that a share of it costs a count for each of a few chunks, where no one else has the table.
    pub fn close(&mut self)
        ensures { self.new ≡ self.old }
    {
        tend_kept(&mut self.kept, &Upkeep::Close)
    }

    /// Sees that the live rows of a value are found without a pass, where no one else has the table. It costs a look-up for each row that came since the last call.
    pub fn index_values(&mut self)
        ensures { self.new ≡ self.old }
    {
        tend_kept(&mut self.kept, &Upkeep::Index)
    }

    /// The same for all rows of a value, dead ones too, so that `entries_near` and `has_row` pass over no others.
    pub fn index_rows(&mut self)
        ensures { self.new ≡ self.old }
    {
        tend_kept(&mut self.kept, &Upkeep::IndexAll)
    }

    /// `index_values`, and leaves out which rows of a value are dead by now, so that removing it again costs nothing.
    pub fn prune_value(&mut self, value: &Value)
        ensures { self.new ≡ self.old }
    {
        tend_kept(&mut self.kept, &Upkeep::Prune(value))
    }
}

/// What can be done to a table. Where memory is refused it is left undone.
#[derive(Drop)]
enum Upkeep<'a> {
    Close,
    Index,
    IndexAll,
    Prune(&'a Value),
}

fn gather_kept(kept: &mut Kept)
    ensures { log_in kept.new ≡ log_in kept.old }
{
    if let Kept::Past(grown) = kept {
        if let Some(set) = grown.gathered() {
            *kept = Kept::Whole(set);
        }
    }
}

fn tend_kept(kept: &mut Kept, upkeep: &Upkeep<'_>)
    ensures { log_in kept.new ≡ log_in kept.old }
{
    if let Kept::Whole(set) = kept {
        tend_shared(set, upkeep);
    }
}

fn tend_shared(shared: &mut Arc<LogSet>, upkeep: &Upkeep<'_>)
    ensures { arc_value shared.new ≡ arc_value shared.old }
{
    if let Some(set) = Arc::get_mut(shared) {
        tend(set, upkeep);
    }
}

fn tend(set: &mut LogSet, upkeep: &Upkeep<'_>)
    ensures { set.new ≡ set.old }
{
    let _ = match upkeep {
        Upkeep::Close => {
            set.close();
            Ok(())
        }
        Upkeep::Index => set.index_values(),
        Upkeep::IndexAll => set.index_rows(),
        Upkeep::Prune(value) => set.prune_value(value),
    };
}
