//! One growth of a variable, as it is kept.

ghost use Rattle.std.specs.Prelude.{◌≡◌};
ghost use Rattle.lasp_replica.specs.Prelude.{growth};

use std::marker::Model;

/// The entry at which a variable grew, and how many rows had changed the variable by then.
#[derive(Drop)]
pub(crate) struct Growth {
    entry: u64,
    rows: u64,
}

impl Model for Growth {
    ghost use Rattle.lasp_replica.specs.History as plain;
    ghost use Rattle.lasp_replica.specs.Kept.{growth, coded_growth};

    ghost Value = { plain.Growth };

    ghost coded = { coded_growth };

    ghost view = { λ a. growth a.entry a.rows };
}

impl Growth {
    /// A growth at an entry, counted from 0, by which so many rows had changed the variable.
    pub(crate) fn new(entry: u64, rows: u64) -> Growth
        ensures { result ≡ growth entry rows }
    {
        Growth { entry, rows }
    }

    /// The entry, counted from 0.
    pub(crate) fn entry(&self) -> u64
        ensures { result ≡ self.now.entry }
    {
        self.entry
    }

    /// The number of rows that had changed the variable by then.
    pub(crate) fn rows(&self) -> u64
        ensures { result ≡ self.now.rows }
    {
        self.rows
    }
}
