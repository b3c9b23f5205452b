//! Which entries may follow those of a legal journal.

ghost use Rattle.std.specs.Prelude.{◌≡◌, ℕ, ◌+◌, ◌<◌, ◌≤◌, List, [], ◌∷◌, ◌++◌, length, map, take, None};
ghost use Rattle.model_states.specs.Counts.{count_at};
ghost use Rattle.model_states.specs.Content.{Content, join_contents, size_of, row_limit, IsOrdered};
ghost use Rattle.model_states.specs.Shape.{HasShape};
ghost use Rattle.model_states.specs.Update.{Op, delta};
ghost use Rattle.model_graph.specs.Graph.{Kind, Decl, kind_at};
ghost use Rattle.model_graph.specs.Evaluation.{equation, first_large};
ghost use Rattle.model_graph.specs.Lawful.{variable_limit, MayFollow, IsGraph, IsDerived, sources_among, shape_of};
ghost use Rattle.model_graph.specs.Width.{HasWidth};
ghost use Rattle.model_graph.specs.Message.{Message};
ghost use Rattle.model_readings.specs.Lawful as readings;
ghost use Rattle.model_wire.specs.Lawful.{IsSource, IsMessage};
ghost use Rattle.model_world.specs.World.{delivered};
ghost use Rattle.model_runs.specs.Held.{IsSentTo, IsUpdate};
ghost use Rattle.model_journal.specs.Entry.{Update, Deliver, Bind, Extend, Entry, Frame};
ghost use Rattle.model_journal.specs.Journal.{graph, vals, val, counts};
ghost use Rattle.model_journal.specs.Legal.{IsValid, IsLegal};
ghost use Rattle.model_core.specs.Peer.{peer_of};

/// A journal of a graph that was read is legal at its start, and stays so by updates within the format, by messages of the format that fit and leave no source too large, by binds whose equation is not too large, and by declarations that may be read next.
#[tactic(auto, using(crate::proofs::LegalLaws::legal))]
pub fn these_entries_are_legal()
    ensures start { (X : Frame) → readings.IsGraph X.opening → X.replica < X.nodes → IsLegal X [] }
    ensures update { (X : Frame) (entries : List Entry) → IsLegal X entries → (e : Entry) (y : ℕ) (op : Op) → e.act ≡ Update y op → y < length (graph X entries) → IsUpdate X.nodes (graph X entries) y op → count_at (counts X entries) X.replica < 100000
        → size_of (join_contents (val X entries y) (delta op (val X entries y) X.replica (count_at (counts X entries) X.replica + 1))) ≤ row_limit → IsLegal X (entries ++ e ∷ []) }
    ensures deliver { (X : Frame) (entries : List Entry) → IsLegal X entries → (e : Entry) (i : ℕ) (m : Message) → e.act ≡ Deliver i m → IsMessage m → length m.counts ≡ X.nodes
        → ((more : List Decl) × (map (λ s. s.decl) m.sources ++ more ≡ sources_among (graph X entries))) → first_large 0 (delivered (graph X entries) m (peer_of X entries)).contents ≡ None → IsLegal X (entries ++ e ∷ []) }
    ensures bind { (X : Frame) (entries : List Entry) → IsLegal X entries → (e : Entry) (y n : ℕ) → e.act ≡ Bind y n → n ≤ length entries → IsDerived (graph X (take n entries)) y
        → size_of (equation (kind_at (graph X entries) y) (vals X (take n entries))) ≤ row_limit → IsLegal X (entries ++ e ∷ []) }
    ensures extend { (X : Frame) (entries : List Entry) → IsLegal X entries → (e : Entry) (d : Decl) → e.act ≡ Extend d → readings.IsNext (graph X entries) d → length (graph X entries) < variable_limit → IsLegal X (entries ++ e ∷ []) }
{}

/// A graph that was read is a graph of journals, what may be read next may follow, and what a source may hold in a message is valid.
#[tactic(auto, using(crate::proofs::GraphLaws::graphs, crate::proofs::ValidLaws::validity))]
pub fn what_is_read_is_valid()
    ensures graph { (g : List Decl) → readings.IsGraph g → IsGraph g }
    ensures next { (g : List Decl) (d : Decl) → readings.IsNext g d → length g < variable_limit → MayFollow g d }
    ensures source { (nodes : ℕ) (k : Kind) (s : Content) → IsSource nodes k s → IsValid nodes k 1 s }
{}

/// The sources of a message are the first sources of a graph exactly where they are those of its first declarations.
#[tactic(auto, using(crate::proofs::MessageLaws::messages))]
pub fn messages_have_the_first_sources()
    ensures sent { (nodes : ℕ) (g : List Decl) (m : Message) → IsMessage m → length m.counts ≡ nodes → ((more : List Decl) × (map (λ s. s.decl) m.sources ++ more ≡ sources_among g)) → IsSentTo nodes g m }
    ensures first { (nodes : ℕ) (g : List Decl) (m : Message) → IsSentTo nodes g m → (more : List Decl) × (map (λ s. s.decl) m.sources ++ more ≡ sources_among g) }
{}

/// What a variable of a legal journal holds is in order, of its kind's shape, and no wider or larger than the limits.
#[tactic(auto, using(crate::proofs::ValidLaws::contents))]
pub fn contents_are_within_the_limits()
    ensures width { (X : Frame) (entries : List Entry) → IsLegal X entries → (x : ℕ) → HasWidth 16 (val X entries x) }
    ensures small { (X : Frame) (entries : List Entry) → IsLegal X entries → (x : ℕ) → size_of (val X entries x) ≤ row_limit }
    ensures ordered { (X : Frame) (entries : List Entry) → IsLegal X entries → (x : ℕ) → IsOrdered (val X entries x) }
    ensures shape { (X : Frame) (entries : List Entry) → IsLegal X entries → (x : ℕ) → HasShape (shape_of X.nodes (kind_at (graph X entries) x)) (val X entries x) }
{}
