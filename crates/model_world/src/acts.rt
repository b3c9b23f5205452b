//! What is known, act by act.

ghost use Rattle.std.specs.Prelude.{◌≡◌, ℕ, ◌+◌, ◌<◌, IsTrue, List, [], ◌∷◌, ◌++◌, length, Ok, replicate, slice_set};
ghost use Rattle.model_states.specs.Counts.{count_at, AreCountsAtMost};
ghost use Rattle.model_states.specs.Content.{join_contents};
ghost use Rattle.model_states.specs.Update.{Op, delta};
ghost use Rattle.model_graph.specs.Graph.{Decl, is_source, kind_at};
ghost use Rattle.model_graph.specs.Evaluation.{content_at};
ghost use Rattle.model_graph.specs.Message.{Message, source_number, sent_at};
ghost use Rattle.model_world.specs.World.{Peer, Run, Act, Update, peer_at, sent_number, start, act};
ghost use Rattle.model_world.specs.Delta.{Delta, deltas_at};
ghost use Rattle.model_world.specs.Known.{IsKnown};

/// Each act leaves replicas and messages with what is known of their counts. An update may be told by any delta that joins in as its own does. And a message brings nothing to a replica that counts all that the message counts.
pub fn acts_keep_what_is_known()
    ensures start { (g : List Decl) (nodes : ℕ) → IsKnown nodes (start g nodes).graph (start g nodes).peers (start g nodes).sent (replicate nodes []) }
    ensures update { (nodes c p x : ℕ) (op : Op) (run next : Run) (all : List (List Delta)) → IsKnown nodes run.graph run.peers run.sent all → p < nodes → x < length run.graph → IsTrue (is_source (kind_at run.graph x)) → act c run (Update p x op) ≡ Ok next
        → (d : Delta) → d.var ≡ x → join_contents (content_at (peer_at run.peers p).contents x) d.content ≡ join_contents (content_at (peer_at run.peers p).contents x) (delta op (content_at (peer_at run.peers p).contents x) p (count_at (peer_at run.peers p).counts p + 1))
        → IsKnown nodes next.graph next.peers next.sent (slice_set all p (deltas_at all p ++ d ∷ [])) }
    ensures others { (nodes c : ℕ) (a : Act) (run next : Run) (all : List (List Delta)) → IsKnown nodes run.graph run.peers run.sent all → ((p x : ℕ) (op : Op) → a ≡ Update p x op → ⊥) → act c run a ≡ Ok next → IsKnown nodes next.graph next.peers next.sent all }
    ensures covered { (nodes : ℕ) (g : List Decl) (peers : List Peer) (sent : List Message) (all : List (List Delta)) → IsKnown nodes g peers sent all → (p i x : ℕ) → p < nodes → x < length g → IsTrue (is_source (kind_at g x))
        → AreCountsAtMost (sent_number sent i).counts (peer_at peers p).counts → join_contents (content_at (peer_at peers p).contents x) (sent_at (sent_number sent i).sources (source_number g x)) ≡ content_at (peer_at peers p).contents x }
{}
