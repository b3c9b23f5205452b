//! A table whose rows stand in order, so that a sort of them costs little.

ghost use Rattle.std.specs.Prelude.{◌≡◌, IfOk};
ghost use Rattle.std.specs.Arc.{arc_value};
ghost use Rattle.lasp_logset.specs.Whole.{log_in};

use super::name::Name;
use super::orset::{Kept, OrSet};
use super::set::LogSet;
use indexmap::IndexMap;
use std::alloc::AllocError;
use std::sync::Arc;

/// At how many places it is looked whether rows ascend. Fewer rows are sorted anew at any time.
const LOOKS: usize = 64;

/// How often they may fall there, before all are put in order: about half of the rows that came out of order do.
const MOST_FALLS: usize = 4;

impl OrSet {
    /// Sees that what a table shows costs little, where no one else has it. Where its visible values are few, it finds them, at a few comparisons for each row that came since. Else it puts the rows in ascending order where some eighth of them came out of order: `sorted` costs little more than a comparison a row then. This costs 64 comparisons; where it changes the table, a sort, and an insertion for each row. What finds the rows of a value has to take all rows in anew then. Where memory is refused it does nothing.
    pub fn order_rows(&mut self)
        ensures { self.new ≡ self.old }
    {
        if !is_to_order(&mut self.kept) {
            return;
        }
        if let Ok(set) = self.ordered() {
            *self = set;
        }
    }

    /// An equal set with a table of its own, whose rows came in order.
    fn ordered(&self) -> Result<OrSet, AllocError>
        ensures { IfOk result (λ s. s ≡ self.now) }
    {
        self.ascends();
        let mut rows = Vec::new(self.allocator());
        let mut left = self.in_order()?;
        while let Some(row) = left.next() {
            rows.push(row.entry()?)?;
        }
        let log = OrSet::of_ascending(rows)?;
        Ok(OrSet {
            kept: Kept::Whole(log.table()?),
        })
    }
}

/// Whether no one else has the table of a set, its visible values aren't few, and many of its rows stand out of order.
fn is_to_order(kept: &mut Kept) -> bool
    ensures { log_in kept.new ≡ log_in kept.old }
{
    match kept {
        Kept::Whole(set) => is_alone_to_order(set),
        Kept::Past(_) => false,
    }
}

fn is_alone_to_order(shared: &mut Arc<LogSet>) -> bool
    ensures { arc_value shared.new ≡ arc_value shared.old }
{
    let Some(set) = Arc::get_mut(shared) else {
        return false;
    };
    !set.find_few() && is_unordered(set.parts().0)
}

/// Whether so many of the neighbours that are looked at stand in the wrong order that a sort of all would cost much.
fn is_unordered(rows: &IndexMap<Name, bool>) -> bool {
    let stride = rows.len() / LOOKS;
    let mut falls = 0usize;
    for look in 0..LOOKS {
        if falls_at(rows, stride.saturating_mul(look)) {
            falls = falls.saturating_add(1);
        }
    }
    stride > 0 && falls > MOST_FALLS
}

/// Whether the row behind a place is less than the row there.
fn falls_at(rows: &IndexMap<Name, bool>, place: usize) -> bool {
    match (
        rows.get_index(place),
        rows.get_index(place.saturating_add(1)),
    ) {
        (Some((name, _)), Some((next, _))) => next.compare(name).is_lt(),
        (_, _) => false,
    }
}
