//! Places of one run.

ghost use Rattle.std.specs.Prelude.{◌≡◌, ℕ, ◌<◌, List, ◌++◌};
ghost use Rattle.model_states.specs.Counts.{AreCountsAtMost};
ghost use Rattle.model_graph.specs.Graph.{Decl, kind_at};
ghost use Rattle.model_graph.specs.Evaluation.{content_at};
ghost use Rattle.model_world.specs.Command.{Command};
ghost use Rattle.model_world.specs.Line.{shown_content};
ghost use Rattle.model_world.specs.World.{peer_at, sent_number, delivered, shown_at};
ghost use Rattle.model_world.specs.Follow.{Followed};
ghost use Rattle.model_world.specs.Holds.{IsPlaceOf};

/// Two places of one run, two nodes or two moments, that have the same graph and equal counts have equal sources, equal evaluation and equal printed values. So no repeat, loss or order of deliveries shows once the counts are equal; and a message that brings no new count changes nothing.
#[tactic(auto, using(crate::proofs::AlikeLaws::alike))]
pub fn places_with_equal_counts_are_alike()
    ensures sources { (g : List Decl) (nodes : ℕ) (commands more : List Command) (f last : Followed) → IsPlaceOf g nodes commands f → IsPlaceOf g nodes (commands ++ more) last
        → f.run.graph ≡ last.run.graph → (p q : ℕ) → p < nodes → q < nodes → (peer_at f.run.peers p).counts ≡ (peer_at last.run.peers q).counts
        → (peer_at f.run.peers p).contents ≡ (peer_at last.run.peers q).contents }
    ensures shown { (g : List Decl) (nodes : ℕ) (commands more : List Command) (f last : Followed) → IsPlaceOf g nodes commands f → IsPlaceOf g nodes (commands ++ more) last
        → f.run.graph ≡ last.run.graph → (p q : ℕ) → p < nodes → q < nodes → (peer_at f.run.peers p).counts ≡ (peer_at last.run.peers q).counts
        → shown_at f.run.graph (peer_at f.run.peers p) ≡ shown_at last.run.graph (peer_at last.run.peers q) }
    ensures printed { (g : List Decl) (nodes : ℕ) (commands more : List Command) (f last : Followed) → IsPlaceOf g nodes commands f → IsPlaceOf g nodes (commands ++ more) last
        → f.run.graph ≡ last.run.graph → (p q : ℕ) → p < nodes → q < nodes → (peer_at f.run.peers p).counts ≡ (peer_at last.run.peers q).counts → (x : ℕ)
        → shown_content (kind_at f.run.graph x) (content_at (shown_at f.run.graph (peer_at f.run.peers p)) x) ≡ shown_content (kind_at last.run.graph x) (content_at (shown_at last.run.graph (peer_at last.run.peers q)) x) }
    ensures late { (g : List Decl) (nodes : ℕ) (commands : List Command) (f : Followed) → IsPlaceOf g nodes commands f → (p i : ℕ) → p < nodes → AreCountsAtMost (sent_number f.run.sent i).counts (peer_at f.run.peers p).counts
        → delivered f.run.graph (sent_number f.run.sent i) (peer_at f.run.peers p) ≡ peer_at f.run.peers p }
{}
