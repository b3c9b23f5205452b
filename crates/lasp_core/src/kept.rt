//! A core as a history lock keeps it: as its entries, and as what never changes of it.

ghost use Rattle.std.specs.Prelude.{◌≡◌};

use crate::replica_core::Core;
use lasp_graph::Graph;
use lasp_histlock::Kept;
use lasp_replica::Entry;
use std::marker::Model;
use std::sync::Arc;

/// An entry as a lock's history has it. No value of it is made: it stands in proofs alone.
pub struct KeptEntry {
    entry: Entry,
}

impl Model for KeptEntry {
    ghost use Rattle.model_journal.specs.Entry as model;
    ghost use Rattle.lasp_replica.specs.Entries.{entry_of};
    ghost use Rattle.lasp_core.specs.Coded.{coded_entry};

    ghost Value = { model.Entry };

    ghost coded = { coded_entry };

    ghost view = { λ a. entry_of a.entry };
}

/// What never changes of a core: the graph that it opened with, its number and the number of nodes. No value of it is made: it stands in proofs alone.
pub struct KeptFrame {
    graph: Arc<Graph>,
    replica: u8,
    nodes: u8,
}

impl Model for KeptFrame {
    ghost use Rattle.std.specs.Arc.{arc_value};
    ghost use Rattle.model_journal.specs.Entry as model;
    ghost use Rattle.lasp_core.specs.Coded.{coded_frame};

    ghost Value = { model.Frame };

    ghost coded = { coded_frame };

    ghost view = { λ a. record { opening = arc_value a.graph; replica = a.replica; nodes = a.nodes } };
}

/// A core behind a lock stands for its journal. The caller with number 0 may make any entry, every other one binds alone.
impl Kept for Core {
    ghost use Rattle.model_journal.specs.Callers.{MayMake};

    type Item = KeptEntry;

    type Frame = KeptFrame;

    ghost list = { λ c. c.entries };

    ghost frame = { λ c. c.frame };

    ghost names = { λ e. e.by };

    ghost may = { λ n e. (e.by ≡ n) × MayMake n e.act };

    fn entries(&self) -> u64 {
        self.journal_len()
    }

    ghost named = { λ n e made. made.0 };
}
