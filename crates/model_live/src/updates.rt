//! What a node knows behind its own updates.

ghost use Rattle.std.specs.Prelude.{◌≡◌, ◌<◌, ◌++◌, ◌∷◌, [], ℕ, List, length};
ghost use Rattle.model_graph.specs.Evaluation.{content_at};
ghost use Rattle.model_graph.specs.Graph.{Counter, Decl, kind_at};
ghost use Rattle.model_journal.specs.Callers.{AreMadeByTheirCallers};
ghost use Rattle.model_journal.specs.Entry.{Update, Entry};
ghost use Rattle.model_journal.specs.Legal.{IsLegal};
ghost use Rattle.model_runs.specs.Calls.{fed, frame_of};
ghost use Rattle.model_states.specs.Counts.{count_at};
ghost use Rattle.model_states.specs.Update.{Op};
ghost use Rattle.model_world.specs.Command.{Script};
ghost use Rattle.model_world.specs.Lawful.{IsLawful};
ghost use Rattle.model_world.specs.World.{fresh_peer, updated};
ghost use Rattle.model_live.specs.Knows.{Knows};
ghost use Rattle.model_live.specs.Steps.{Does, Updates, Step, steps};
ghost use Rattle.model_live.specs.Together.{after_steps};

/// A node that did the first of its steps, and knows of itself what those make of a node that hears of nobody, knows so behind its next update as well.
pub fn nodes_know_their_own_updates()
    ensures { (g : List Decl) (script : Script) (p x made : ℕ) (counted : ℕ → ℕ) (op : Op) (done left : List Step) (entries : List Entry) → IsLawful g script → p < script.nodes
        → steps p 1 script.commands ≡ done ++ Does (Updates x op) ∷ left → Knows g script p made counted entries
        → made ≡ count_at (after_steps p done (fresh_peer g script.nodes)).counts p
        → ((y : ℕ) → y < length g → kind_at g y ≡ Counter → counted y ≡ count_at (content_at (after_steps p done (fresh_peer g script.nodes)).contents y).counts p)
        → IsLegal (frame_of g script.nodes p) (entries ++ fed (Update x op) ∷ []) → AreMadeByTheirCallers (entries ++ fed (Update x op) ∷ [])
        → Knows g script p (count_at (updated p x op (after_steps p done (fresh_peer g script.nodes))).counts p) (λ y. count_at (content_at (updated p x op (after_steps p done (fresh_peer g script.nodes))).contents y).counts p) (entries ++ fed (Update x op) ∷ []) }
{}
