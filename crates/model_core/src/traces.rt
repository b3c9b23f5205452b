//! The lines of a journal, entry by entry. There is nothing to run here.

ghost use Rattle.std.specs.Prelude.{◌≡◌, ℕ, ◌<◌, List, length, slice_get, Some};
ghost use Rattle.model_journal.specs.Entry.{Entry, Frame};
ghost use Rattle.model_journal.specs.Journal.{graph};
ghost use Rattle.model_journal.specs.Legal.{IsLegal};
ghost use Rattle.model_core.specs.Trace.{NamesDeclared};

/// What the entries of a legal journal name is declared in its graph.
pub fn journals_name_declared_variables()
    ensures { (X : Frame) (entries : List Entry) (i : ℕ) (e : Entry) → IsLegal X entries → i < length entries → slice_get entries i ≡ Some e → NamesDeclared (graph X entries) e.act }
{}
