//! Who makes which entry.

ghost use Rattle.std.specs.Prelude.{◌≡◌, ℕ, IsTrue, ◌↔◌, ◌⊎◌, List};
ghost use Rattle.model_graph.specs.Graph.{is_source, kind_at};
ghost use Rattle.model_journal.specs.Entry.{Act, Bind, Entry, Frame};
ghost use Rattle.model_journal.specs.Journal.{graph, val, counts};
ghost use Rattle.model_journal.specs.Callers.{MayMake, AreMadeByTheirCallers, made_by};
ghost use Rattle.model_journal.specs.Legal.{IsLegal};

/// Caller 0 makes any entry, and the others only bind. So the entries of caller 0 alone tell the graph, the counts and the sources.
#[tactic(auto, using(crate::proofs::CallerLaws::feeds))]
pub fn the_feed_tells_the_sources()
    ensures callers { (by : ℕ) (act : Act) → MayMake by act ↔ ((by ≡ 0) ⊎ ((y : ℕ) × (n : ℕ) × (act ≡ Bind y n))) }
    ensures graph { (X : Frame) (entries : List Entry) → IsLegal X entries → AreMadeByTheirCallers entries → graph X entries ≡ graph X (made_by 0 entries) }
    ensures counts { (X : Frame) (entries : List Entry) → IsLegal X entries → AreMadeByTheirCallers entries → counts X entries ≡ counts X (made_by 0 entries) }
    ensures sources { (X : Frame) (entries : List Entry) → IsLegal X entries → AreMadeByTheirCallers entries → (x : ℕ) → IsTrue (is_source (kind_at (graph X entries) x)) → val X entries x ≡ val X (made_by 0 entries) x }
{}
