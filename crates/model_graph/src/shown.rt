//! Evaluation and the plain algebra.

ghost use Rattle.std.specs.Prelude.{◌≡◌, ℕ, Bool, List};
ghost use Rattle.model_functions.specs.Lift.{LiftOp};
ghost use Rattle.model_sets.specs.Values.{visible};
ghost use Rattle.model_sets.specs.Algebra.{IsMarkedBy};
ghost use Rattle.model_states.specs.Content.{Content};
ghost use Rattle.model_graph.specs.Graph.{FoldOp, Decl};
ghost use Rattle.model_graph.specs.Evaluation.{rows_at, eval};
ghost use Rattle.model_graph.specs.Fold.{fold_values, fold_rows};
ghost use Rattle.model_graph.specs.Algebra.{values_at, algebra, visible_sets, AreMarkedSources};

/// Where one list of dead tokens tells all deaths in the sources, it does in every variable, and each variable shows just what the algebra gives on what the sources show; a fold's number is that of the algebra's values.
#[tactic(auto, using(crate::proofs::ShownLaws::shown))]
pub fn evaluation_shows_the_algebra()
    ensures marked { (dead : ℕ → ℕ → Bool) (g : List Decl) (ss : List Content) → AreMarkedSources dead g ss → (x : ℕ) → IsMarkedBy dead (rows_at (eval g ss) x) }
    ensures shown { (dead : ℕ → ℕ → Bool) (g : List Decl) (ss : List Content) → AreMarkedSources dead g ss → (x : ℕ) → visible (rows_at (eval g ss) x) ≡ values_at (algebra g (visible_sets ss)) x }
    ensures folded { (dead : ℕ → ℕ → Bool) (g : List Decl) (ss : List Content) → AreMarkedSources dead g ss → (x : ℕ) (op : FoldOp) (lift : LiftOp)
        → fold_rows op lift (rows_at (eval g ss) x) ≡ fold_values op lift (values_at (algebra g (visible_sets ss)) x) }
{}
