//! What is known, and who holds it.

ghost use Rattle.std.specs.Prelude.{◌≡◌, ℕ, ◌+◌, ◌<◌, List, [], ◌++◌, length, Ok, slice_index_or};
ghost use Rattle.model_states.specs.Counts.{count_at, larger};
ghost use Rattle.model_states.specs.Content.{Content, join_contents, IsContentAtMost, IsOrdered};
ghost use Rattle.model_graph.specs.Graph.{Decl, kind_at};
ghost use Rattle.model_graph.specs.Evaluation.{content_at, least_of};
ghost use Rattle.model_world.specs.Command.{Command, Script};
ghost use Rattle.model_world.specs.Lawful.{IsLawful};
ghost use Rattle.model_world.specs.World.{Run, peer_at, sent_number, mark_at, play, ended};
ghost use Rattle.model_world.specs.Delta.{Delta, deltas_at, known, known_contents};
ghost use Rattle.model_world.specs.Owner.{delta_at};
ghost use Rattle.model_world.specs.Follow.{Followed, follow, pointed};
ghost use Rattle.model_world.specs.Holds.{Holds, Carries, Keeps, IsPlaceOf};

/// What is known of a variable by counts is the least content above what the first so many updates of each replica brought to it; of the larger counts it is the join, and of no updates it is least. A followed run is the run; a lawful script that comes to its end has a place there, and one after each of its first commands.
#[tactic(auto, using(crate::proofs::KnownLaws::known_laws))]
pub fn known_is_the_join_of_the_first_updates()
    ensures above { (g : List Decl) (nodes : ℕ) (all : List (List Delta)) (cs : List ℕ) (x q j : ℕ) → j < count_at cs q → j < length (deltas_at all q) → (delta_at all q j).var ≡ x → IsContentAtMost (delta_at all q j).content (known g nodes all cs x) }
    ensures least { (g : List Decl) (nodes : ℕ) (all : List (List Delta)) (cs : List ℕ) (x : ℕ) (s : Content) → IsContentAtMost (least_of nodes (kind_at g x)) s
        → ((q j : ℕ) → j < count_at cs q → j < length (deltas_at all q) → (delta_at all q j).var ≡ x → IsContentAtMost (delta_at all q j).content s) → IsContentAtMost (known g nodes all cs x) s }
    ensures ordered { (g : List Decl) (nodes : ℕ) (all : List (List Delta)) (cs : List ℕ) (x : ℕ) → IsOrdered (known g nodes all cs x) }
    ensures larger { (g : List Decl) (nodes : ℕ) (all : List (List Delta)) (cs ds : List ℕ) (x : ℕ) → known g nodes all (larger cs ds) x ≡ join_contents (known g nodes all cs x) (known g nodes all ds x) }
    ensures nothing { (g : List Decl) (nodes : ℕ) (all : List (List Delta)) (x : ℕ) → known g nodes all [] x ≡ least_of nodes (kind_at g x) }
    ensures each { (g : List Decl) (nodes : ℕ) (all : List (List Delta)) (cs : List ℕ) (x : ℕ) → x < length g → content_at (known_contents g nodes all cs) x ≡ known g nodes all cs x }
    ensures run { (c : ℕ) (f : Followed) (commands : List Command) → pointed (c + length commands) (follow c f commands) ≡ play c f.run commands }
    ensures end { (g : List Decl) (script : Script) (last : Run) → IsLawful g script → ended g script ≡ Ok last → (f : Followed) × IsPlaceOf g script.nodes script.commands f × (f.run ≡ last) }
    ensures first { (g : List Decl) (nodes : ℕ) (commands more : List Command) (last : Followed) → IsPlaceOf g nodes (commands ++ more) last → (f : Followed) × IsPlaceOf g nodes commands f }
{}

/// After every lawful list of commands each replica holds what is known of its counts, and knows all updates of its own; each message that was sent carries what is known of its counts, and each mark keeps what was known of some.
#[tactic(auto, using(crate::proofs::KnownLaws::holders))]
pub fn replicas_hold_what_they_know()
    ensures replica { (g : List Decl) (nodes : ℕ) (commands : List Command) (f : Followed) → IsPlaceOf g nodes commands f → (p : ℕ) → p < nodes → Holds f.run.graph nodes f.deltas (peer_at f.run.peers p).contents (peer_at f.run.peers p).counts }
    ensures contents { (g : List Decl) (nodes : ℕ) (commands : List Command) (f : Followed) → IsPlaceOf g nodes commands f → (p : ℕ) → p < nodes → (peer_at f.run.peers p).contents ≡ known_contents f.run.graph nodes f.deltas (peer_at f.run.peers p).counts }
    ensures own { (g : List Decl) (nodes : ℕ) (commands : List Command) (f : Followed) → IsPlaceOf g nodes commands f → (p : ℕ) → p < nodes → count_at (peer_at f.run.peers p).counts p ≡ length (deltas_at f.deltas p) }
    ensures message { (g : List Decl) (nodes : ℕ) (commands : List Command) (f : Followed) → IsPlaceOf g nodes commands f → (i : ℕ) → Carries f.run.graph nodes f.deltas (sent_number f.run.sent i) }
    ensures mark { (g : List Decl) (nodes : ℕ) (commands : List Command) (f : Followed) → IsPlaceOf g nodes commands f → (m : ℕ) → m < length f.marked → Keeps f.run.graph nodes f.deltas (slice_index_or f.marked m 0) (mark_at f.run.marks m).content }
{}
