//! A row on its way in, with its key once for the table and once for the log: both shares are taken before anything is written.

ghost use Rattle.std.specs.Prelude.{◌≡◌, IfOk};

use super::entry::Entry;
use super::name::Name;
use std::alloc::AllocError;
use std::marker::Model;

#[derive(Drop)]
pub(crate) struct Coming {
    pub(crate) name: Name,
    pub(crate) entry: Entry,
}

impl Model for Coming {
    ghost use Rattle.std.specs.Prelude.{◌≡◌};
    ghost use Rattle.model_values.specs.Row.{Row, coded_row};

    ghost Value = { Row };

    ghost coded = { coded_row };

    ghost view = { λ a. a.entry };

    ghost invariant = { λ a. a.name ≡ a.entry.0 };
}

impl Coming {
    pub(crate) fn of(entry: Entry) -> Result<Coming, AllocError>
        ensures { IfOk result (λ r. r ≡ entry) }
    {
        Ok(Coming {
            name: entry.name().share()?,
            entry,
        })
    }
}
