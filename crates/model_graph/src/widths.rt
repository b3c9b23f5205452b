//! How wide variables are.

ghost use Rattle.std.specs.Prelude.{◌≡◌, ℕ, ◌<◌, IsTrue, List, length};
ghost use Rattle.model_states.specs.Content.{Content};
ghost use Rattle.model_graph.specs.Graph.{Decl, is_source, kind_at};
ghost use Rattle.model_graph.specs.Evaluation.{content_at, eval};
ghost use Rattle.model_graph.specs.Lawful.{width_at, widths};
ghost use Rattle.model_graph.specs.Width.{HasWidth};

/// Over sources of width 1 the values and tokens of each variable are of its width.
#[tactic(auto, using(crate::proofs::WidthLaws::width_laws))]
pub fn variables_are_of_their_widths()
    ensures long { (g : List Decl) → length (widths g) ≡ length g }
    ensures each { (g : List Decl) (ss : List Content) → ((x : ℕ) → x < length g → IsTrue (is_source (kind_at g x)) → HasWidth 1 (content_at ss x)) → (x : ℕ) → HasWidth (width_at (widths g) x) (content_at (eval g ss) x) }
{}
