//! What travelling as deltas changes of a run: nothing.

ghost use Rattle.std.specs.Prelude.{◌≡◌, ℕ, ◌<◌, ◌↔◌, List, length, None, Ok, Err};
ghost use Rattle.model_graph.specs.Graph.{Decl};
ghost use Rattle.model_graph.specs.Message.{Message};
ghost use Rattle.model_world.specs.Command.{Command, Script};
ghost use Rattle.model_world.specs.World.{Run, Act, Post, act, ended, peer_at, message_at, sent_number, delivered};
ghost use Rattle.model_world.specs.declared.stop.Stop.{Stop};
ghost use Rattle.model_world.specs.Follow.{Followed};
ghost use Rattle.model_world.specs.Holds.{IsPlaceOf};
ghost use Rattle.model_runs.specs.Part.{BringsAsMuch};
ghost use Rattle.model_wire.specs.Lawful.{IsMessage};
ghost use Rattle.model_deltas.specs.Delta.{carried};
ghost use Rattle.model_deltas.specs.Applied.{first_gap, joined, limited, unless, applied};
ghost use Rattle.model_deltas.specs.Before.{IsBefore, IsInOrder};
ghost use Rattle.model_deltas.specs.Gossip.{Gossip, last_told, delta_number, gossip_after, gossip_start, gossiped};
ghost use Rattle.model_deltas.specs.Going.{Travels};

/// The run by deltas of a script is the script's run: it ends in the same world, or stops where that stops.
pub fn deltas_change_nothing_of_a_run()
    ensures ends { (g : List Decl) (script : Script) (s : Gossip) → gossiped g script ≡ Ok s → ended g script ≡ Ok s.run }
    ensures stops { (g : List Decl) (script : Script) (stop : Stop) → gossiped g script ≡ Err stop ↔ ended g script ≡ Err stop }
{}

/// Each message travels as the delta from what its sender told last, or from nothing, so it is at the start, and after each act that could be done. Only a send asks for more: that what the node told last and what it tells now are within the ranges of the format, and that the one goes before the other.
pub fn messages_travel_as_deltas()
    ensures start { (g : List Decl) (nodes : ℕ) → Travels (gossip_start g nodes) }
    ensures post { (c p : ℕ) (s : Gossip) (next : Run) → Travels s → p < length s.run.peers → IsMessage (last_told s p) → IsMessage (message_at s.run.graph (peer_at s.run.peers p)) → IsBefore (last_told s p) (message_at s.run.graph (peer_at s.run.peers p))
        → act c s.run (Post p) ≡ Ok next → Travels (gossip_after s (Post p) next) }
    ensures others { (c : ℕ) (s : Gossip) (a : Act) (next : Run) → Travels s → ((p : ℕ) → a ≡ Post p → ⊥) → act c s.run a ≡ Ok next → Travels (gossip_after s a next) }
{}

/// At each place of a lawful run the delta of a message, applied to what a node would send, is what both have together, unless there is a gap or a source would be too large; and a node that takes what it has together with a message whose sources are in order holds what it would hold by the message. Where there is no gap, what the delta carries brings the node as much as the message, so that it may be joined in alone.
pub fn deliveries_by_deltas_bring_the_message()
    ensures applied { (g : List Decl) (nodes : ℕ) (commands : List Command) (f : Followed) (s : Gossip) → IsPlaceOf g nodes commands f → f.run ≡ s.run → Travels s → (p i : ℕ) → p < nodes → i < length s.run.sent
        → applied (message_at s.run.graph (peer_at s.run.peers p)) (delta_number s i) ≡ unless (first_gap 0 (peer_at s.run.peers p).counts (delta_number s i).from) (limited (joined (message_at s.run.graph (peer_at s.run.peers p)) (sent_number s.run.sent i))) }
    ensures carried { (g : List Decl) (nodes : ℕ) (commands : List Command) (f : Followed) (s : Gossip) → IsPlaceOf g nodes commands f → f.run ≡ s.run → Travels s → (p i : ℕ) → p < nodes → i < length s.run.sent
        → first_gap 0 (peer_at s.run.peers p).counts (delta_number s i).from ≡ None → BringsAsMuch s.run.graph (peer_at s.run.peers p).contents (sent_number s.run.sent i) (carried (delta_number s i)) }
    ensures taken { (g : List Decl) (nodes : ℕ) (commands : List Command) (f : Followed) → IsPlaceOf g nodes commands f → (p : ℕ) (m : Message) → p < nodes → IsInOrder m
        → delivered f.run.graph (joined (message_at f.run.graph (peer_at f.run.peers p)) m) (peer_at f.run.peers p) ≡ delivered f.run.graph m (peer_at f.run.peers p) }
{}
