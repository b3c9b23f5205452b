//! A journal and its first entries.

ghost use Rattle.std.specs.Prelude.{◌≡◌, ℕ, ◌≤◌, List, [], ◌∷◌, ◌++◌, length, take};
ghost use Rattle.model_states.specs.Counts.{AreCountsAtMost};
ghost use Rattle.model_graph.specs.Order.{ContentsAtMost};
ghost use Rattle.model_journal.specs.Entry.{Entry, Frame};
ghost use Rattle.model_journal.specs.Journal.{snapshot_at, next, journal, vals, counts};
ghost use Rattle.model_journal.specs.Clean.{version};
ghost use Rattle.model_journal.specs.Legal.{IsLegal};

/// The snapshots that a journal keeps are what its first entries come to, and each variable and each count only grows, a variable from the entry that declares it on. Nothing is asked of the entries; legal ones keep a count for each replica.
#[tactic(auto, using(crate::proofs::CleanLaws::prefixes))]
pub fn journals_only_grow()
    ensures snapshots { (X : Frame) (entries : List Entry) (n : ℕ) → snapshot_at (journal X entries) n ≡ (journal X (take n entries)).now }
    ensures past { (X : Frame) (entries : List Entry) → length (journal X entries).past ≡ length entries }
    ensures push { (X : Frame) (entries : List Entry) (e : Entry) → journal X (entries ++ e ∷ []) ≡ next X (journal X entries) e }
    ensures grows { (X : Frame) (entries more : List Entry) → ContentsAtMost (vals X entries) (vals X (entries ++ more)) }
    ensures counts_grow { (X : Frame) (entries more : List Entry) → AreCountsAtMost (counts X entries) (counts X (entries ++ more)) }
    ensures versions_grow { (X : Frame) (entries more : List Entry) (x : ℕ) → version X entries x ≤ version X (entries ++ more) x }
    ensures counts_long { (X : Frame) (entries : List Entry) → IsLegal X entries → length (counts X entries) ≡ X.nodes }
{}
