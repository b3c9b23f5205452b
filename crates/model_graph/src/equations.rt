//! One variable over its inputs.

ghost use Rattle.std.specs.Prelude.{◌≡◌, ℕ, List};
ghost use Rattle.model_values.specs.Row.{Row};
ghost use Rattle.model_states.specs.Content.{Content, least, join_contents, IsContentAtMost, IsOrdered};
ghost use Rattle.model_graph.specs.Graph.{Kind, IsInput};
ghost use Rattle.model_graph.specs.Evaluation.{content_at, rows_at, equation};
ghost use Rattle.model_graph.specs.Increment.{IsChange, HasGrown, changed_at, increment};

/// A process looks at its inputs alone, grows where they grow, keeps their order of rows, and is least where they are.
#[tactic(auto, using(crate::proofs::EvalLaws::equations))]
pub fn equations_follow_their_inputs()
    ensures monotone { (k : Kind) (ss ts : List Content) → ((x : ℕ) → IsInput k x → IsContentAtMost (content_at ss x) (content_at ts x)) → IsContentAtMost (equation k ss) (equation k ts) }
    ensures alike { (k : Kind) (ss ts : List Content) → ((x : ℕ) → IsInput k x → content_at ss x ≡ content_at ts x) → equation k ss ≡ equation k ts }
    ensures ordered { (k : Kind) (ss : List Content) → ((x : ℕ) → IsInput k x → IsOrdered (content_at ss x)) → IsOrdered (equation k ss) }
    ensures least { (k : Kind) (ss : List Content) → ((x : ℕ) → IsInput k x → content_at ss x ≡ least) → equation k ss ≡ least }
{}

/// A process over inputs that changed is what it was, joined with what the changed rows give, whichever rows make the change; those that are more do. So an evaluation may begin at an old result.
#[tactic(auto, using(crate::proofs::IncrementLaws::increments))]
pub fn equations_follow_changed_rows()
    ensures grown { (k : Kind) (before after : List Content) (change : ℕ → List Row) → ((x : ℕ) → IsInput k x → IsChange (rows_at before x) (change x) (rows_at after x))
        → equation k after ≡ join_contents (equation k before) (increment k change after) }
    ensures change { (before after : List Content) (x : ℕ) → HasGrown before after x → IsChange (rows_at before x) (changed_at before after x) (rows_at after x) }
    ensures changed { (k : Kind) (before after : List Content) → ((x : ℕ) → IsInput k x → HasGrown before after x)
        → equation k after ≡ join_contents (equation k before) (increment k (changed_at before after) after) }
{}
