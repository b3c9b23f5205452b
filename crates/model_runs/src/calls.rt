//! The calls of a script at one node.

ghost use Rattle.std.specs.Prelude.{◌≡◌, ℕ, ◌+◌, ◌<◌, ◌≤◌, List, ◌++◌, length, Ok};
ghost use Rattle.model_graph.specs.Graph.{Decl};
ghost use Rattle.model_graph.specs.Lawful.{IsGraph};
ghost use Rattle.model_world.specs.Command.{Command, Script};
ghost use Rattle.model_world.specs.Lawful.{IsLawful};
ghost use Rattle.model_world.specs.World.{Run, peer_at, start, ended};
ghost use Rattle.model_world.specs.Follow.{Followed};
ghost use Rattle.model_world.specs.Holds.{IsPlaceOf};
ghost use Rattle.model_journal.specs.Callers.{made_by};
ghost use Rattle.model_journal.specs.Journal.{graph, vals, counts};
ghost use Rattle.model_journal.specs.Legal.{IsLegal};
ghost use Rattle.model_runs.specs.Calls.{frame_of, calls, unbound};

/// Every call is caller 0's, and none is a bind.
#[tactic(auto, using(crate::proofs::FedLaws::feeds))]
pub fn calls_feed_a_replica()
    ensures by { (c : ℕ) (run : Run) (p : ℕ) (commands : List Command) → made_by 0 (calls c run p commands) ≡ calls c run p commands }
    ensures unbound { (c : ℕ) (run : Run) (p : ℕ) (commands : List Command) → unbound (calls c run p commands) ≡ calls c run p commands }
{}

/// After lawful commands that were done, at most 100,000, the journal of a node's calls is legal and has the graph, the contents and the counts that the node has in the run. The calls of more commands begin with those of the first.
#[tactic(auto, using(crate::proofs::CallLaws::calls_laws))]
pub fn the_journal_of_the_calls_has_what_the_node_has()
    ensures graph { (g : List Decl) (nodes : ℕ) (commands : List Command) (f : Followed) → IsGraph g → length commands ≤ 100000 → IsPlaceOf g nodes commands f → (p : ℕ) → p < nodes
        → graph (frame_of g nodes p) (calls 1 (start g nodes) p commands) ≡ f.run.graph }
    ensures contents { (g : List Decl) (nodes : ℕ) (commands : List Command) (f : Followed) → IsGraph g → length commands ≤ 100000 → IsPlaceOf g nodes commands f → (p : ℕ) → p < nodes
        → vals (frame_of g nodes p) (calls 1 (start g nodes) p commands) ≡ (peer_at f.run.peers p).contents }
    ensures counts { (g : List Decl) (nodes : ℕ) (commands : List Command) (f : Followed) → IsGraph g → length commands ≤ 100000 → IsPlaceOf g nodes commands f → (p : ℕ) → p < nodes
        → counts (frame_of g nodes p) (calls 1 (start g nodes) p commands) ≡ (peer_at f.run.peers p).counts }
    ensures legal { (g : List Decl) (nodes : ℕ) (commands : List Command) (f : Followed) → IsGraph g → length commands ≤ 100000 → IsPlaceOf g nodes commands f → (p : ℕ) → p < nodes
        → IsLegal (frame_of g nodes p) (calls 1 (start g nodes) p commands) }
    ensures script { (g : List Decl) (script : Script) (last : Run) → IsGraph g → IsLawful g script → ended g script ≡ Ok last → (p : ℕ) → p < script.nodes → IsLegal (frame_of g script.nodes p) (calls 1 (start g script.nodes) p script.commands) }
    ensures first { (g : List Decl) (nodes : ℕ) (commands more : List Command) (f : Followed) → IsPlaceOf g nodes commands f → (p : ℕ)
        → calls 1 (start g nodes) p (commands ++ more) ≡ calls 1 (start g nodes) p commands ++ calls (1 + length commands) f.run p more }
{}
