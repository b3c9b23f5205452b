//! A set that is asked for its values.

ghost use Rattle.std.specs.Prelude.{◌≡◌, ◌↔◌, IfOk, IsTrue};
ghost use Rattle.std.specs.Arc.{arc_value};
ghost use Rattle.lasp_setops.specs.Prelude.{IsHeld, visible, val_of};

use lasp_logset::{LogSet, OrSet};
use lasp_value::Value;
use std::alloc::AllocError;
use std::marker::Model;
use std::sync::Arc;

/// A set with the table that finds its values, seen as its list of rows.
#[derive(Drop)]
pub(crate) struct Asked {
    table: Arc<LogSet>,
}

impl Model for Asked {
    ghost use Rattle.std.specs.Prelude.{List};
    ghost use Rattle.std.specs.Arc.{arc_value};
    ghost use Rattle.model_values.specs.Row.{Row, coded_rows};
    ghost use Rattle.model_sets.specs.Rows.{of_rows};

    ghost Value = { List Row };

    ghost coded = { coded_rows };

    ghost view = { λ a. of_rows (arc_value a.table) };
}

impl Asked {
    /// A share of the table of a set. Where it has none one is made, which costs an insertion for each change.
    pub(crate) fn of(set: &OrSet) -> Result<Asked, AllocError>
        ensures { IfOk result (λ a. a ≡ set.now) }
    {
        let mut table = set.table()?;
        index(&mut table)?;
        Ok(Asked { table })
    }

    /// Whether the set shows a value. It costs two look-ups, and where others have the table a pass over the rows that came since its values were indexed.
    pub(crate) fn has(&self, value: &Value) -> bool
        ensures { IsTrue result ↔ IsHeld (visible self.now) (val_of value.now) }
    {
        self.table.has(value)
    }
}

/// Indexes the values of a table that no one else has.
fn index(shared: &mut Arc<LogSet>) -> Result<(), AllocError>
    ensures { arc_value shared.new ≡ arc_value shared.old }
{
    match Arc::get_mut(shared) {
        Some(set) => set.index_values(),
        None => Ok(()),
    }
}
