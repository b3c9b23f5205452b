//! How commands leave a graph behind.

ghost use Rattle.std.specs.Prelude.{◌≡◌, ◌++◌, ℕ, [], List, length, take};
ghost use Rattle.model_graph.specs.Graph.{Decl};
ghost use Rattle.model_world.specs.Command.{Command};
ghost use Rattle.model_world.specs.Lawful.{Stage};
ghost use Rattle.model_scripts.specs.Progress.{stage_behind, grown};

/// A graph grows by what commands declare alone, at its end: what stood in it stands at its old place.
pub fn graphs_grow_by_declarations()
    ensures behind { (nodes : ℕ) (s : Stage) (ks : List Command) → (stage_behind nodes s ks).graph ≡ grown s.graph ks }
    ensures append { (g : List Decl) (ks ls : List Command) → grown g (ks ++ ls) ≡ grown (grown g ks) ls }
    ensures added { (g : List Decl) (ks : List Command) → grown g ks ≡ g ++ grown [] ks }
    ensures kept { (g : List Decl) (ks : List Command) → take (length g) (grown g ks) ≡ g }
{}
