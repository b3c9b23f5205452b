//! What a node knows as its journal goes on.

ghost use Rattle.std.specs.Prelude.{◌≡◌, ◌≢◌, ◌+◌, ◌<◌, ◌≤◌, ◌++◌, ◌∷◌, [], ℕ, List, IsTrue, length};
ghost use Rattle.model_core.specs.Peer.{peer_of};
ghost use Rattle.model_graph.specs.Evaluation.{content_at};
ghost use Rattle.model_graph.specs.Graph.{Counter, Decl, is_source, kind_at};
ghost use Rattle.model_journal.specs.Entry.{Deliver, Update, Entry, Frame};
ghost use Rattle.model_journal.specs.Journal.{declared, graph, vals};
ghost use Rattle.model_journal.specs.Legal.{IsLegal};
ghost use Rattle.model_graph.specs.Message.{Message};
ghost use Rattle.model_runs.specs.Calls.{fed, frame_of, unbound};
ghost use Rattle.model_states.specs.Counts.{count_at};
ghost use Rattle.model_states.specs.Update.{Op};
ghost use Rattle.model_world.specs.Command.{Script};
ghost use Rattle.model_world.specs.World.{Peer, delivered, updated};
ghost use Rattle.model_live.specs.Letter.{IsLetter, IsNews};
ghost use Rattle.model_journal.specs.Callers.{AreMadeByTheirCallers};
ghost use Rattle.model_live.specs.Knows.{Knows};
ghost use Rattle.model_live.specs.Lived.{AreOfOthers, first_number, heard_of, numbers_of_one};
ghost use Rattle.model_live.specs.Together.{own_updates, AreWithin};

/// Results tell a node nothing; a message and an update of its own make of its sources and counts what they make of a replica's in the world. Where its sources are within what all do, so is all that it keeps.
pub fn nodes_know_as_their_journals_go_on()
    ensures results { (X : Frame) (entries more : List Entry) → IsLegal X (entries ++ more) → unbound more ≡ [] → peer_of X (entries ++ more) ≡ peer_of X entries }
    ensures declares { (more : List Entry) → unbound more ≡ [] → declared more ≡ [] }
    ensures opens { (X : Frame) (entries : List Entry) → declared entries ≡ [] → graph X entries ≡ X.opening }
    ensures delivers { (X : Frame) (entries : List Entry) (i : ℕ) (m : Message) → IsLegal X (entries ++ fed (Deliver i m) ∷ [])
        → peer_of X (entries ++ fed (Deliver i m) ∷ []) ≡ delivered (graph X entries) m (peer_of X entries) }
    ensures updates { (X : Frame) (entries : List Entry) (x : ℕ) (op : Op) → IsLegal X (entries ++ fed (Update x op) ∷ []) → x < length (graph X entries) → IsTrue (is_source (kind_at (graph X entries) x))
        → peer_of X (entries ++ fed (Update x op) ∷ []) ≡ updated X.replica x op (peer_of X entries) }
    ensures within { (g : List Decl) (script : Script) (p : ℕ) (entries : List Entry) → IsLegal (record { opening = g; replica = p; nodes = script.nodes }) entries → declared entries ≡ []
        → AreWithin g script (peer_of (frame_of g script.nodes p) entries).contents → AreWithin g script (vals (frame_of g script.nodes p) entries) }
    ensures heard { (q : ℕ) (entries more : List Entry) → unbound more ≡ [] → heard_of q (entries ++ more) ≡ heard_of q entries }
    ensures others { (nodes p : ℕ) (entries more : List Entry) → unbound more ≡ [] → AreOfOthers nodes p entries → AreOfOthers nodes p (entries ++ more) }
{}

/// A letter that tells a node of none of its own updates that it didn't make leaves what the node counts of itself, and of no node it counts more than that makes.
pub fn news_leave_a_nodes_own_counts()
    ensures updates { (g : List Decl) (p made : ℕ) (counted : ℕ → ℕ) (m : Message) (r : Peer) → IsNews g p made counted m → count_at r.counts p ≡ made → count_at (delivered g m r).counts p ≡ made }
    ensures totals { (g : List Decl) (p made : ℕ) (counted : ℕ → ℕ) (m : Message) (r : Peer) → IsNews g p made counted m → length r.contents ≡ length g
        → ((x : ℕ) → x < length g → kind_at g x ≡ Counter → count_at (content_at r.contents x).counts p ≡ counted x)
        → (x : ℕ) → x < length g → kind_at g x ≡ Counter → count_at (content_at (delivered g m r).contents x).counts p ≡ counted x }
    ensures counted { (g : List Decl) (script : Script) (m : Message) (r : Peer) → IsLetter g script m → ((q : ℕ) → q < script.nodes → count_at r.counts q ≤ own_updates g script q)
        → (q : ℕ) → q < script.nodes → count_at (delivered g m r).counts q ≤ own_updates g script q }
{}

/// A node that hears letters, each under a number of its sender, goes on knowing what a node knows that runs beside others; and so it does where results come.
pub fn nodes_hear_letters()
    ensures results { (g : List Decl) (script : Script) (p made : ℕ) (counted : ℕ → ℕ) (entries more : List Entry) → Knows g script p made counted entries
        → IsLegal (frame_of g script.nodes p) (entries ++ more) → AreMadeByTheirCallers (entries ++ more) → unbound more ≡ [] → Knows g script p made counted (entries ++ more) }
    ensures letters { (g : List Decl) (script : Script) (p made : ℕ) (counted : ℕ → ℕ) (entries : List Entry) (q k : ℕ) (m : Message) → Knows g script p made counted entries
        → IsLetter g script m → IsNews g p made counted m → q < script.nodes → q ≢ p → k < numbers_of_one
        → IsLegal (frame_of g script.nodes p) (entries ++ fed (Deliver (first_number q + k) m) ∷ []) → AreMadeByTheirCallers (entries ++ fed (Deliver (first_number q + k) m) ∷ [])
        → Knows g script p made counted (entries ++ fed (Deliver (first_number q + k) m) ∷ []) }
    ensures heard { (entries : List Entry) (q k : ℕ) (m : Message) → k < numbers_of_one → heard_of q (entries ++ fed (Deliver (first_number q + k) m) ∷ []) ≡ heard_of q entries ++ (first_number q + k, m) ∷ [] }
    ensures unheard { (entries : List Entry) (q r k : ℕ) (m : Message) → k < numbers_of_one → r ≢ q → heard_of r (entries ++ fed (Deliver (first_number q + k) m) ∷ []) ≡ heard_of r entries }
{}
