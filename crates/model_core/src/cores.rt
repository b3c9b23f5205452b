//! The core of a replica, entry by entry.

ghost use Rattle.std.specs.Prelude.{◌≡◌, ℕ, ◌+◌, ◌<◌, ◌≤◌, true, IsTrue, List, [], ◌∷◌, ◌++◌, length, map, take, None};
ghost use Rattle.std.specs.List.{AllByRecursion};
ghost use Rattle.model_states.specs.Counts.{count_at};
ghost use Rattle.model_states.specs.Content.{join_contents, size_of, row_limit};
ghost use Rattle.model_states.specs.Update.{Op, delta};
ghost use Rattle.model_graph.specs.Graph.{Decl, kind_at};
ghost use Rattle.model_graph.specs.Evaluation.{equation, first_large};
ghost use Rattle.model_graph.specs.Lawful.{variable_limit, IsDerived, sources_among};
ghost use Rattle.model_graph.specs.Message.{Message};
ghost use Rattle.model_readings.specs.Lawful as readings;
ghost use Rattle.model_wire.specs.Lawful.{IsMessage};
ghost use Rattle.model_world.specs.World.{delivered};
ghost use Rattle.model_runs.specs.Held.{IsHeld, IsUpdate};
ghost use Rattle.model_journal.specs.Entry.{Update, Deliver, Bind, Extend, Entry, Frame};
ghost use Rattle.model_journal.specs.Journal.{graph, vals, val, counts};
ghost use Rattle.model_journal.specs.Legal.{IsLegal};
ghost use Rattle.model_core.specs.Peer.{peer_of};
ghost use Rattle.model_core.specs.Core.{Read, Core, is_met, entered, released, IsCore};

/// A core stays one that a replica may have: by each entry that leaves its journal legal and its sources within the format, and so by each entry that code may make.
#[tactic(auto, using(crate::proofs::CoreLaws::cores))]
pub fn entries_keep_the_core()
    ensures entered { (c : Core) (e : Entry) → IsCore c → IsLegal c.frame (c.entries ++ e ∷ []) → IsHeld c.frame.nodes (graph c.frame (c.entries ++ e ∷ [])) (peer_of c.frame (c.entries ++ e ∷ [])) → IsCore (entered e c) }
    ensures start { (X : Frame) (busy : List ℕ) (opened owed : ℕ) → readings.IsGraph X.opening → X.replica < X.nodes → X.nodes ≤ 8 → IsCore (record { frame = X; entries = []; parked = []; busy = busy; opened = opened; owed = owed }) }
    ensures update { (c : Core) → IsCore c → (e : Entry) (y : ℕ) (op : Op) → e.act ≡ Update y op → y < length (graph c.frame c.entries) → IsUpdate c.frame.nodes (graph c.frame c.entries) y op
        → count_at (counts c.frame c.entries) c.frame.replica < 100000
        → size_of (join_contents (val c.frame c.entries y) (delta op (val c.frame c.entries y) c.frame.replica (count_at (counts c.frame c.entries) c.frame.replica + 1))) ≤ row_limit → IsCore (entered e c) }
    ensures deliver { (c : Core) → IsCore c → (e : Entry) (i : ℕ) (m : Message) → e.act ≡ Deliver i m → IsMessage m → length m.counts ≡ c.frame.nodes
        → ((more : List Decl) × (map (λ s. s.decl) m.sources ++ more ≡ sources_among (graph c.frame c.entries)))
        → first_large 0 (delivered (graph c.frame c.entries) m (peer_of c.frame c.entries)).contents ≡ None → IsCore (entered e c) }
    ensures bind { (c : Core) → IsCore c → (e : Entry) (y n : ℕ) → e.act ≡ Bind y n → n ≤ length c.entries → IsDerived (graph c.frame (take n c.entries)) y
        → size_of (equation (kind_at (graph c.frame c.entries) y) (vals c.frame (take n c.entries))) ≤ row_limit → IsCore (entered e c) }
    ensures extend { (c : Core) → IsCore c → (e : Entry) (d : Decl) → e.act ≡ Extend d → readings.IsNext (graph c.frame c.entries) d → length (graph c.frame c.entries) < variable_limit → IsCore (entered e c) }
{}

/// A read that was met stays met as entries come.
#[tactic(auto, using(crate::proofs::ReadLaws::reads))]
pub fn reads_stay_met()
    ensures met { (X : Frame) (entries more : List Entry) → IsLegal X (entries ++ more) → (r : Read) → is_met X entries r ≡ true → is_met X (entries ++ more) r ≡ true }
{}

/// Where no variable changed that a read waits for, all reads go on waiting; each read that an entry releases is met.
#[tactic(auto, using(crate::proofs::CoreLaws::releases))]
pub fn entries_release_what_they_met()
    ensures parked { (c : Core) (e : Entry) → IsCore c → AllByRecursion (λ r. val c.frame (c.entries ++ e ∷ []) r.var ≡ val c.frame c.entries r.var) c.parked → (entered e c).parked ≡ c.parked }
    ensures released { (c : Core) (e : Entry) → IsCore c → AllByRecursion (λ r. val c.frame (c.entries ++ e ∷ []) r.var ≡ val c.frame c.entries r.var) c.parked → released e c ≡ [] }
    ensures met { (c : Core) (e : Entry) → IsCore c → AllByRecursion (λ r. IsTrue (is_met c.frame (c.entries ++ e ∷ []) r)) (released e c) }
{}
