//! What one more entry changes, kind by kind. What a clause does not name is as it was.

ghost use Rattle.std.specs.Prelude.{◌≡◌, ℕ, ◌+◌, ◌<◌, IsTrue, List, [], ◌∷◌, ◌++◌, length, take, slice_set};
ghost use Rattle.model_states.specs.Counts.{count_at, larger};
ghost use Rattle.model_states.specs.Content.{join_contents, IsContentAtMost};
ghost use Rattle.model_states.specs.Update.{Op, delta};
ghost use Rattle.model_graph.specs.Graph.{Decl, is_source, kind_at};
ghost use Rattle.model_graph.specs.Evaluation.{least_of, equation};
ghost use Rattle.model_graph.specs.Lawful.{IsDerived};
ghost use Rattle.model_graph.specs.Message.{Message, sent_at, source_number};
ghost use Rattle.model_journal.specs.Entry.{Update, Deliver, Bind, Extend, Entry, Frame};
ghost use Rattle.model_journal.specs.Journal.{graph, vals, val, counts, declared};
ghost use Rattle.model_journal.specs.Clean.{version};
ghost use Rattle.model_journal.specs.Legal.{IsLegal};

/// An update joins its delta into the variable that it names, and is counted at its replica.
#[tactic(auto, using(crate::proofs::EntryLaws::updates))]
pub fn an_update_changes_its_variable()
    ensures vals { (X : Frame) (entries : List Entry) → IsLegal X entries → (e : Entry) (y : ℕ) (op : Op) → e.act ≡ Update y op → y < length (graph X entries)
        → vals X (entries ++ e ∷ []) ≡ slice_set (vals X entries) y (join_contents (val X entries y) (delta op (val X entries y) X.replica (count_at (counts X entries) X.replica + 1))) }
    ensures counts { (X : Frame) (entries : List Entry) (e : Entry) (y : ℕ) (op : Op) → e.act ≡ Update y op → counts X (entries ++ e ∷ []) ≡ slice_set (counts X entries) X.replica (count_at (counts X entries) X.replica + 1) }
{}

/// A delivery joins the message's sources into the sources, place by place, and takes the greater counts, whatever the message's number is.
#[tactic(auto, using(crate::proofs::EntryLaws::deliveries))]
pub fn a_delivery_changes_sources()
    ensures source { (X : Frame) (entries : List Entry) → IsLegal X entries → (e : Entry) (i : ℕ) (m : Message) → e.act ≡ Deliver i m → (x : ℕ) → x < length (graph X entries) → IsTrue (is_source (kind_at (graph X entries) x))
        → val X (entries ++ e ∷ []) x ≡ join_contents (val X entries x) (sent_at m.sources (source_number (graph X entries) x)) }
    ensures derived { (X : Frame) (entries : List Entry) → IsLegal X entries → (e : Entry) (i : ℕ) (m : Message) → e.act ≡ Deliver i m → (x : ℕ) → IsDerived (graph X entries) x → val X (entries ++ e ∷ []) x ≡ val X entries x }
    ensures counts { (X : Frame) (entries : List Entry) (e : Entry) (i : ℕ) (m : Message) → e.act ≡ Deliver i m → counts X (entries ++ e ∷ []) ≡ larger (counts X entries) m.counts }
{}

/// A bind joins the variable's equation on what stood after the first n entries into the variable.
#[tactic(auto, using(crate::proofs::EntryLaws::binds))]
pub fn a_bind_changes_its_variable()
    ensures vals { (X : Frame) (entries : List Entry) → IsLegal X entries → (e : Entry) (y n : ℕ) → e.act ≡ Bind y n → y < length (graph X entries)
        → vals X (entries ++ e ∷ []) ≡ slice_set (vals X entries) y (join_contents (val X entries y) (equation (kind_at (graph X entries) y) (vals X (take n entries)))) }
    ensures counts { (X : Frame) (entries : List Entry) (e : Entry) (y n : ℕ) → e.act ≡ Bind y n → counts X (entries ++ e ∷ []) ≡ counts X entries }
{}

/// A declaration adds a variable at the end of the graph, with what its kind has before anything happened; no other entry changes the graph.
#[tactic(auto, using(crate::proofs::EntryLaws::declarations))]
pub fn a_declaration_adds_a_variable()
    ensures vals { (X : Frame) (entries : List Entry) (e : Entry) (d : Decl) → e.act ≡ Extend d → vals X (entries ++ e ∷ []) ≡ vals X entries ++ least_of X.nodes d.kind ∷ [] }
    ensures counts { (X : Frame) (entries : List Entry) (e : Entry) (d : Decl) → e.act ≡ Extend d → counts X (entries ++ e ∷ []) ≡ counts X entries }
    ensures graph { (X : Frame) (entries : List Entry) → graph X entries ≡ X.opening ++ declared entries }
{}

/// A variable's version is raised by one at each entry at which it grew, and at no other.
#[tactic(auto, using(crate::proofs::EntryLaws::versions))]
pub fn versions_count_where_a_variable_grew()
    ensures start { (X : Frame) (x : ℕ) → version X [] x ≡ 0 }
    ensures still { (X : Frame) (entries : List Entry) (e : Entry) (x : ℕ) → IsContentAtMost (val X (entries ++ e ∷ []) x) (val X entries x) → version X (entries ++ e ∷ []) x ≡ version X entries x }
    ensures grew { (X : Frame) (entries : List Entry) (e : Entry) (x : ℕ) → (IsContentAtMost (val X (entries ++ e ∷ []) x) (val X entries x) → ⊥) → version X (entries ++ e ∷ []) x ≡ version X entries x + 1 }
{}
