//! Deltas between replicas of one run.

ghost use Rattle.std.specs.Prelude.{ℕ, ◌<◌, ◌++◌, List, length};
ghost use Rattle.model_graph.specs.Graph.{Decl};
ghost use Rattle.model_graph.specs.Message.{Message};
ghost use Rattle.model_world.specs.Command.{Command};
ghost use Rattle.model_world.specs.World.{sent_number};
ghost use Rattle.model_world.specs.Delta as known;
ghost use Rattle.model_world.specs.Follow.{Followed};
ghost use Rattle.model_world.specs.Holds.{IsPlaceOf, Carries};
ghost use Rattle.model_deltas.specs.Before.{IsBefore, AreAlike, IsInOrder};
ghost use Rattle.model_deltas.specs.World.{nothing_told, told_at, IsToldAmong, IsMessageIn, AreOfOneWorld, DeltaStandsFor};

/// Between messages of one world a delta stands for its later message: applied to a third message it gives what that one and the later message have together, or is refused for a gap, or since a source of these would be too large. The step rests on counts alone: where no count of the third message is below the earlier one's, it holds what the earlier one holds. What is asked of the three messages beside this is that the earlier one goes before the later one; nothing is asked of their ranges. Where no world is told, but what messages carry, the later one's sources have to be in order, too.
pub fn deltas_stand_for_their_messages()
    ensures world { (before after m : Message) → AreOfOneWorld before after m → IsBefore before after → DeltaStandsFor before after m }
    ensures known { (g : List Decl) (nodes : ℕ) (all : List (List known.Delta)) (before after m : Message) → Carries g nodes all before → Carries g nodes all m
        → IsInOrder after → IsBefore before after → AreAlike m after → DeltaStandsFor before after m }
{}

/// The messages of a world go together. What was sent was told by a node on the way. The sources of each are in order. Any two are of one graph and of as many nodes, so a delta to the one may be applied to the other. What a node tells at a place goes before what it tells at a later one, and nothing told goes before all: so there is a delta between two messages of a node in the order in which it made them, sent or not.
pub fn messages_of_a_world_go_together()
    ensures sent { (g : List Decl) (nodes : ℕ) (commands : List Command) (f : Followed) → IsPlaceOf g nodes commands f → (i : ℕ) → i < length f.run.sent → IsToldAmong g nodes commands (sent_number f.run.sent i) }
    ensures ordered { (g : List Decl) (nodes : ℕ) (commands : List Command) (f : Followed) → IsPlaceOf g nodes commands f → (m : Message) → IsMessageIn g nodes commands m → IsInOrder m }
    ensures alike { (g : List Decl) (nodes : ℕ) (commands : List Command) (f : Followed) → IsPlaceOf g nodes commands f → (m n : Message) → IsMessageIn g nodes commands m → IsMessageIn g nodes commands n → AreAlike m n }
    ensures nothing { (g : List Decl) (nodes : ℕ) (commands : List Command) (f : Followed) → IsPlaceOf g nodes commands f → (m : Message) → IsMessageIn g nodes commands m → IsBefore (nothing_told nodes) m }
    ensures later { (g : List Decl) (nodes : ℕ) (commands more : List Command) (f last : Followed) → IsPlaceOf g nodes commands f → IsPlaceOf g nodes (commands ++ more) last → (p : ℕ) → p < nodes → IsBefore (told_at f p) (told_at last p) }
{}
