//! A replica in the world, entry by entry.

ghost use Rattle.std.specs.Prelude.{◌≡◌, ℕ, ◌<◌, IsTrue, List, [], ◌∷◌, ◌++◌, length};
ghost use Rattle.model_states.specs.Update.{Op};
ghost use Rattle.model_graph.specs.Graph.{Decl, is_source, kind_at};
ghost use Rattle.model_graph.specs.Lawful.{IsDerived};
ghost use Rattle.model_graph.specs.Message.{Message};
ghost use Rattle.model_world.specs.World.{fresh_peer, updated, delivered, extended, message_at};
ghost use Rattle.model_journal.specs.Entry.{Update, Deliver, Bind, Extend, Entry, Frame};
ghost use Rattle.model_journal.specs.Journal.{graph, counts};
ghost use Rattle.model_journal.specs.Legal.{IsLegal};
ghost use Rattle.model_journal.specs.Message.{message};
ghost use Rattle.model_core.specs.Peer.{peer_of};

/// Each entry of a legal journal changes the replica as the step of the world with the same name does, and a bind changes nothing of it. What the journal's replica sends is what the one in the world does.
#[tactic(auto, using(crate::proofs::PeerLaws::peers))]
pub fn entries_change_the_peer()
    ensures fresh { (X : Frame) → peer_of X [] ≡ fresh_peer X.opening X.nodes }
    ensures updated { (X : Frame) (entries : List Entry) → IsLegal X entries → (e : Entry) (y : ℕ) (op : Op) → e.act ≡ Update y op → y < length (graph X entries) → IsTrue (is_source (kind_at (graph X entries) y))
        → peer_of X (entries ++ e ∷ []) ≡ updated X.replica y op (peer_of X entries) }
    ensures delivered { (X : Frame) (entries : List Entry) → IsLegal X entries → (e : Entry) (i : ℕ) (m : Message) → e.act ≡ Deliver i m → peer_of X (entries ++ e ∷ []) ≡ delivered (graph X entries) m (peer_of X entries) }
    ensures bound { (X : Frame) (entries : List Entry) → IsLegal X entries → (e : Entry) (y n : ℕ) → e.act ≡ Bind y n → IsDerived (graph X entries) y → peer_of X (entries ++ e ∷ []) ≡ peer_of X entries }
    ensures extended { (X : Frame) (entries : List Entry) → IsLegal X entries → (e : Entry) (d : Decl) → e.act ≡ Extend d → peer_of X (entries ++ e ∷ []) ≡ extended X.nodes d (peer_of X entries) }
    ensures message { (X : Frame) (entries : List Entry) → message X entries ≡ message_at (graph X entries) (peer_of X entries) }
{}

/// A declaration goes to the end of the graph, and no other entry changes it; there is a count for each replica.
#[tactic(auto, using(crate::proofs::PeerLaws::graphs))]
pub fn entries_change_the_graph()
    ensures updated { (X : Frame) (entries : List Entry) (e : Entry) (y : ℕ) (op : Op) → e.act ≡ Update y op → graph X (entries ++ e ∷ []) ≡ graph X entries }
    ensures delivered { (X : Frame) (entries : List Entry) (e : Entry) (i : ℕ) (m : Message) → e.act ≡ Deliver i m → graph X (entries ++ e ∷ []) ≡ graph X entries }
    ensures bound { (X : Frame) (entries : List Entry) (e : Entry) (y n : ℕ) → e.act ≡ Bind y n → graph X (entries ++ e ∷ []) ≡ graph X entries }
    ensures extended { (X : Frame) (entries : List Entry) (e : Entry) (d : Decl) → e.act ≡ Extend d → graph X (entries ++ e ∷ []) ≡ graph X entries ++ d ∷ [] }
    ensures counts { (X : Frame) (entries : List Entry) → IsLegal X entries → length (counts X entries) ≡ X.nodes }
{}
