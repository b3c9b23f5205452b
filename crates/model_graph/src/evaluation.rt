//! Plain evaluation in words, and what it follows.

ghost use Rattle.std.specs.Prelude.{◌≡◌, ℕ, ◌<◌, IsTrue, List, ◌++◌, length};
ghost use Rattle.model_states.specs.Content.{Content, IsContentAtMost, IsOrdered};
ghost use Rattle.model_graph.specs.Graph.{Decl, is_source, kind_at};
ghost use Rattle.model_graph.specs.Evaluation.{content_at, equation, eval};
ghost use Rattle.model_graph.specs.Order.{ContentsAtMost};
ghost use Rattle.model_graph.specs.Lawful.{IsGraph, IsDerived};

/// Plain evaluation is the one list that has each source as given and each derived variable by its equation. What stays below these stays below it.
#[tactic(auto, using(crate::proofs::EvalLaws::evaluation))]
pub fn evaluation_solves_the_equations()
    ensures long { (g : List Decl) (sources : List Content) → length (eval g sources) ≡ length g }
    ensures source { (g : List Decl) (sources : List Content) (x : ℕ) → x < length g → IsTrue (is_source (kind_at g x)) → content_at (eval g sources) x ≡ content_at sources x }
    ensures derived { (g : List Decl) (sources : List Content) → IsGraph g → (x : ℕ) → IsDerived g x → content_at (eval g sources) x ≡ equation (kind_at g x) (eval g sources) }
    ensures above { (g : List Decl) (sources contents : List Content) → IsGraph g
        → ((x : ℕ) → x < length g → IsTrue (is_source (kind_at g x)) → IsContentAtMost (content_at contents x) (content_at sources x))
        → ((x : ℕ) → IsDerived g x → IsContentAtMost (content_at contents x) (equation (kind_at g x) contents))
        → (x : ℕ) → x < length g → IsContentAtMost (content_at contents x) (content_at (eval g sources) x) }
    ensures only { (g : List Decl) (sources contents : List Content) → IsGraph g → length contents ≡ length g
        → ((x : ℕ) → x < length g → IsTrue (is_source (kind_at g x)) → content_at contents x ≡ content_at sources x)
        → ((x : ℕ) → IsDerived g x → content_at contents x ≡ equation (kind_at g x) contents)
        → contents ≡ eval g sources }
{}

/// Plain evaluation looks at the sources alone, grows where they grow, has its rows in order where they have, and leaves each variable as it is where more are declared.
#[tactic(auto, using(crate::proofs::EvalLaws::growth))]
pub fn evaluation_follows_the_sources()
    ensures alike { (g : List Decl) (ss ts : List Content) → ((x : ℕ) → x < length g → IsTrue (is_source (kind_at g x)) → content_at ss x ≡ content_at ts x) → eval g ss ≡ eval g ts }
    ensures monotone { (g : List Decl) (ss ts : List Content) → IsGraph g
        → ((x : ℕ) → x < length g → IsTrue (is_source (kind_at g x)) → IsContentAtMost (content_at ss x) (content_at ts x)) → ContentsAtMost (eval g ss) (eval g ts) }
    ensures ordered { (g : List Decl) (ss : List Content) → ((x : ℕ) → x < length g → IsTrue (is_source (kind_at g x)) → IsOrdered (content_at ss x)) → (x : ℕ) → IsOrdered (content_at (eval g ss) x) }
    ensures longer { (g more : List Decl) (ss : List Content) (x : ℕ) → x < length g → content_at (eval (g ++ more) ss) x ≡ content_at (eval g ss) x }
{}
