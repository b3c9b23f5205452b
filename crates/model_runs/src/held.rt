//! Replicas and their messages.

ghost use Rattle.std.specs.Prelude.{◌≡◌, ℕ, ◌+◌, ◌<◌, ◌≤◌, List, [], ◌∷◌, ◌++◌, length, None};
ghost use Rattle.model_states.specs.Content.{Content, IsOrdered, size_of, row_limit};
ghost use Rattle.model_states.specs.Counts.{count_at};
ghost use Rattle.model_states.specs.Shape.{HasShape};
ghost use Rattle.model_states.specs.Update.{Op};
ghost use Rattle.model_graph.specs.Evaluation.{content_at, first_large};
ghost use Rattle.model_graph.specs.Graph.{Kind, Decl};
ghost use Rattle.model_graph.specs.Lawful.{shape_of};
ghost use Rattle.model_graph.specs.Width.{HasWidth};
ghost use Rattle.model_graph.specs.Message.{Message};
ghost use Rattle.model_readings.specs.Lawful.{IsGraph};
ghost use Rattle.model_wire.specs.Lawful.{IsSource, IsMessage};
ghost use Rattle.model_world.specs.World.{Peer, fresh_peer, updated, delivered, extended, message_at};
ghost use Rattle.model_runs.specs.Held.{AreBelow, IsHeld, IsSentTo, IsUpdate};

/// What a source holds stays what a message may hold of it: from the start, by each update and delivery that leaves no variable too large, and by declarations. So what a replica sends is a message of the format, while its counts are no more than the format has.
#[tactic(auto, using(crate::proofs::HeldLaws::held_laws))]
pub fn sources_stay_within_the_format()
    ensures fresh { (nodes : ℕ) (g : List Decl) → IsHeld nodes g (fresh_peer g nodes) }
    ensures fresh_counts { (nodes : ℕ) (g : List Decl) → AreBelow 1 (fresh_peer g nodes).counts }
    ensures updated { (nodes p x : ℕ) (g : List Decl) (op : Op) (r : Peer) → IsHeld nodes g r → p < nodes → x < length g → IsUpdate nodes g x op → count_at r.counts p < 100000
        → size_of (content_at (updated p x op r).contents x) ≤ row_limit → IsHeld nodes g (updated p x op r) }
    ensures updated_counts { (c p x : ℕ) (op : Op) (r : Peer) → AreBelow c r.counts → AreBelow (c + 1) (updated p x op r).counts }
    ensures delivered { (nodes : ℕ) (g : List Decl) (m : Message) (r : Peer) → IsHeld nodes g r → IsSentTo nodes g m → first_large 0 (delivered g m r).contents ≡ None → IsHeld nodes g (delivered g m r) }
    ensures delivered_counts { (c : ℕ) (g : List Decl) (m : Message) (r : Peer) → length r.counts ≡ length m.counts → AreBelow c r.counts → AreBelow c m.counts → AreBelow c (delivered g m r).counts }
    ensures extended { (nodes : ℕ) (g : List Decl) (d : Decl) (r : Peer) → IsHeld nodes g r → IsHeld nodes (g ++ d ∷ []) (extended nodes d r) }
    ensures sent_extended { (nodes : ℕ) (g : List Decl) (d : Decl) (m : Message) → IsSentTo nodes g m → IsSentTo nodes (g ++ d ∷ []) m }
    ensures sent { (nodes : ℕ) (g : List Decl) (r : Peer) → IsHeld nodes g r → IsSentTo nodes g (message_at g r) }
    ensures message { (nodes : ℕ) (g : List Decl) (r : Peer) → IsGraph g → 1 ≤ nodes → nodes ≤ 8 → IsHeld nodes g r → AreBelow 100001 r.counts → IsMessage (message_at g r) }
    ensures narrow { (nodes : ℕ) (k : Kind) (s : Content) → IsSource nodes k s → HasWidth 1 s }
    ensures shape { (nodes : ℕ) (k : Kind) (s : Content) → IsSource nodes k s → HasShape (shape_of nodes k) s }
    ensures ordered { (nodes : ℕ) (k : Kind) (s : Content) → IsSource nodes k s → IsOrdered s }
    ensures later { (c : ℕ) (counts : List ℕ) → AreBelow c counts → AreBelow (c + 1) counts }
{}
