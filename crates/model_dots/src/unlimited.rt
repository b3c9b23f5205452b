//! Runs in which nothing stops.

ghost use Rattle.std.specs.Prelude.{◌≡◌, ℕ, ◌<◌, List, ◌++◌, length, Ok, slice_index_or};
ghost use Rattle.model_states.specs.Counts.{count_at, AreCountsAtMost};
ghost use Rattle.model_graph.specs.Graph.{Decl, kind_at};
ghost use Rattle.model_graph.specs.Evaluation.{content_at};
ghost use Rattle.model_world.specs.Command.{Command, Script};
ghost use Rattle.model_world.specs.Line.{shown_content};
ghost use Rattle.model_world.specs.World.{Run, start, ended, peer_at, sent_number, mark_at, delivered, shown_at};
ghost use Rattle.model_world.specs.Delta.{deltas_at, known_contents};
ghost use Rattle.model_world.specs.Follow.{Followed};
ghost use Rattle.model_world.specs.Holds.{Holds, Carries, Keeps, IsPlaceOf};
ghost use Rattle.model_dots.specs.Unlimited.{unlimited, IsUnlimited, IsUnlimitedPlaceOf};

/// The run in which nothing stops is the run at each place that this one comes to, and at its end. It has a place after all lawful commands.
#[tactic(auto, using(crate::proofs::UnlimitedLaws::unlimited_runs))]
pub fn runs_go_as_if_nothing_stopped_them()
    ensures place { (g : List Decl) (nodes : ℕ) (commands : List Command) (f : Followed) → IsPlaceOf g nodes commands f → f.run ≡ unlimited (start g nodes) commands }
    ensures reached { (g : List Decl) (nodes : ℕ) (commands : List Command) (f : Followed) → IsPlaceOf g nodes commands f → IsUnlimitedPlaceOf g nodes commands f }
    ensures end { (g : List Decl) (script : Script) (last : Run) → ended g script ≡ Ok last → last ≡ unlimited (start g script.nodes) script.commands }
    ensures run { (g : List Decl) (nodes : ℕ) (commands : List Command) (f : Followed) → IsUnlimitedPlaceOf g nodes commands f → IsUnlimited g nodes commands f.run }
    ensures each { (g : List Decl) (nodes : ℕ) (commands : List Command) (run : Run) → IsUnlimited g nodes commands run → (f : Followed) × IsUnlimitedPlaceOf g nodes commands f × (f.run ≡ run) }
{}

/// Where nothing stops, too, each replica holds what is known of its counts, and knows all updates of its own; each message that was sent carries what is known of its counts, and each mark keeps what was known of some.
pub fn replicas_hold_what_they_know_where_nothing_stops()
    ensures replica { (g : List Decl) (nodes : ℕ) (commands : List Command) (f : Followed) → IsUnlimitedPlaceOf g nodes commands f → (p : ℕ) → p < nodes → Holds f.run.graph nodes f.deltas (peer_at f.run.peers p).contents (peer_at f.run.peers p).counts }
    ensures contents { (g : List Decl) (nodes : ℕ) (commands : List Command) (f : Followed) → IsUnlimitedPlaceOf g nodes commands f → (p : ℕ) → p < nodes → (peer_at f.run.peers p).contents ≡ known_contents f.run.graph nodes f.deltas (peer_at f.run.peers p).counts }
    ensures own { (g : List Decl) (nodes : ℕ) (commands : List Command) (f : Followed) → IsUnlimitedPlaceOf g nodes commands f → (p : ℕ) → p < nodes → count_at (peer_at f.run.peers p).counts p ≡ length (deltas_at f.deltas p) }
    ensures message { (g : List Decl) (nodes : ℕ) (commands : List Command) (f : Followed) → IsUnlimitedPlaceOf g nodes commands f → (i : ℕ) → Carries f.run.graph nodes f.deltas (sent_number f.run.sent i) }
    ensures mark { (g : List Decl) (nodes : ℕ) (commands : List Command) (f : Followed) → IsUnlimitedPlaceOf g nodes commands f → (m : ℕ) → m < length f.marked → Keeps f.run.graph nodes f.deltas (slice_index_or f.marked m 0) (mark_at f.run.marks m).content }
{}

/// Two places of one such run, two nodes or two moments, that have the same graph and equal counts have equal sources, equal evaluation and equal printed values, whatever was lost, came again or came late before; and a message that brings no new count changes nothing.
#[tactic(auto, using(crate::proofs::PlaceLaws::alike))]
pub fn places_with_equal_counts_are_alike_where_nothing_stops()
    ensures sources { (g : List Decl) (nodes : ℕ) (commands more : List Command) (f last : Followed) → IsUnlimitedPlaceOf g nodes commands f → IsUnlimitedPlaceOf g nodes (commands ++ more) last
        → f.run.graph ≡ last.run.graph → (p q : ℕ) → p < nodes → q < nodes → (peer_at f.run.peers p).counts ≡ (peer_at last.run.peers q).counts
        → (peer_at f.run.peers p).contents ≡ (peer_at last.run.peers q).contents }
    ensures shown { (g : List Decl) (nodes : ℕ) (commands more : List Command) (f last : Followed) → IsUnlimitedPlaceOf g nodes commands f → IsUnlimitedPlaceOf g nodes (commands ++ more) last
        → f.run.graph ≡ last.run.graph → (p q : ℕ) → p < nodes → q < nodes → (peer_at f.run.peers p).counts ≡ (peer_at last.run.peers q).counts
        → shown_at f.run.graph (peer_at f.run.peers p) ≡ shown_at last.run.graph (peer_at last.run.peers q) }
    ensures printed { (g : List Decl) (nodes : ℕ) (commands more : List Command) (f last : Followed) → IsUnlimitedPlaceOf g nodes commands f → IsUnlimitedPlaceOf g nodes (commands ++ more) last
        → f.run.graph ≡ last.run.graph → (p q : ℕ) → p < nodes → q < nodes → (peer_at f.run.peers p).counts ≡ (peer_at last.run.peers q).counts → (x : ℕ)
        → shown_content (kind_at f.run.graph x) (content_at (shown_at f.run.graph (peer_at f.run.peers p)) x) ≡ shown_content (kind_at last.run.graph x) (content_at (shown_at last.run.graph (peer_at last.run.peers q)) x) }
    ensures late { (g : List Decl) (nodes : ℕ) (commands : List Command) (f : Followed) → IsUnlimitedPlaceOf g nodes commands f → (p i : ℕ) → p < nodes → AreCountsAtMost (sent_number f.run.sent i).counts (peer_at f.run.peers p).counts
        → delivered f.run.graph (sent_number f.run.sent i) (peer_at f.run.peers p) ≡ peer_at f.run.peers p }
{}
