//! Journals that have the calls of a node, with binds of any callers between them.

ghost use Rattle.std.specs.Prelude.{◌≡◌, ℕ, ◌<◌, ◌≤◌, IsTrue, List, length, Ok};
ghost use Rattle.model_graph.specs.Graph.{Decl, is_source, kind_at};
ghost use Rattle.model_graph.specs.Lawful.{IsGraph};
ghost use Rattle.model_world.specs.Command.{Command, Script};
ghost use Rattle.model_world.specs.Lawful.{IsLawful};
ghost use Rattle.model_world.specs.World.{Run, peer_at, start, ended};
ghost use Rattle.model_world.specs.Follow.{Followed};
ghost use Rattle.model_world.specs.Holds.{IsPlaceOf};
ghost use Rattle.model_journal.specs.Entry.{Entry, Frame};
ghost use Rattle.model_journal.specs.Journal.{graph, val, counts, sources};
ghost use Rattle.model_journal.specs.Legal.{IsLegal};
ghost use Rattle.model_runs.specs.Calls.{frame_of, calls, unbound};

/// A legal journal has the graph, the counts and the sources of its entries that are no binds.
#[tactic(auto, using(crate::proofs::CallLaws::unbound_laws))]
pub fn binds_leave_the_sources()
    ensures graph { (X : Frame) (h : List Entry) → IsLegal X h → graph X h ≡ graph X (unbound h) }
    ensures counts { (X : Frame) (h : List Entry) → IsLegal X h → counts X h ≡ counts X (unbound h) }
    ensures source { (X : Frame) (h : List Entry) → IsLegal X h → (x : ℕ) → IsTrue (is_source (kind_at (graph X h) x)) → val X h x ≡ val X (unbound h) x }
{}

/// A legal journal whose entries but for the binds are the calls of a node has the graph, the sources and the counts that the node has in the run, whatever the binds are.
#[tactic(auto, using(crate::proofs::CallLaws::journals))]
pub fn journals_with_the_calls_have_the_sources()
    ensures graph { (g : List Decl) (nodes : ℕ) (commands : List Command) (f : Followed) → IsGraph g → length commands ≤ 100000 → IsPlaceOf g nodes commands f → (p : ℕ) → p < nodes
        → (h : List Entry) → IsLegal (frame_of g nodes p) h → unbound h ≡ calls 1 (start g nodes) p commands → graph (frame_of g nodes p) h ≡ f.run.graph }
    ensures counts { (g : List Decl) (nodes : ℕ) (commands : List Command) (f : Followed) → IsGraph g → length commands ≤ 100000 → IsPlaceOf g nodes commands f → (p : ℕ) → p < nodes
        → (h : List Entry) → IsLegal (frame_of g nodes p) h → unbound h ≡ calls 1 (start g nodes) p commands → counts (frame_of g nodes p) h ≡ (peer_at f.run.peers p).counts }
    ensures sources { (g : List Decl) (nodes : ℕ) (commands : List Command) (f : Followed) → IsGraph g → length commands ≤ 100000 → IsPlaceOf g nodes commands f → (p : ℕ) → p < nodes
        → (h : List Entry) → IsLegal (frame_of g nodes p) h → unbound h ≡ calls 1 (start g nodes) p commands → sources (frame_of g nodes p) h ≡ (peer_at f.run.peers p).contents }
    ensures script { (g : List Decl) (script : Script) (last : Run) → IsGraph g → IsLawful g script → ended g script ≡ Ok last → (p : ℕ) → p < script.nodes → (h : List Entry) → IsLegal (frame_of g script.nodes p) h
        → unbound h ≡ calls 1 (start g script.nodes) p script.commands → (graph (frame_of g script.nodes p) h ≡ last.graph) × (sources (frame_of g script.nodes p) h ≡ (peer_at last.peers p).contents) × (counts (frame_of g script.nodes p) h ≡ (peer_at last.peers p).counts) }
{}
