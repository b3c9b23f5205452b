//! What a derived variable is worth at every moment.

ghost use Rattle.std.specs.Prelude.{◌≡◌, ℕ, ◌<◌, List, length, take};
ghost use Rattle.model_states.specs.Content.{IsContentAtMost};
ghost use Rattle.model_graph.specs.Graph.{kind_at};
ghost use Rattle.model_graph.specs.Evaluation.{content_at, equation, eval};
ghost use Rattle.model_graph.specs.Order.{ContentsAtMost};
ghost use Rattle.model_graph.specs.Lawful.{IsGraph, IsDerived};
ghost use Rattle.model_journal.specs.Entry.{Entry, Frame};
ghost use Rattle.model_journal.specs.Journal.{graph, vals, val, sources};
ghost use Rattle.model_journal.specs.Clean.{base};
ghost use Rattle.model_journal.specs.Legal.{IsLegal};

/// In whatever order binds come: a derived variable is its equation on the contents that the latest of its reads saw, so it is at most its equation on the present contents; and each variable is at most what the plain evaluation of the present sources gives.
#[tactic(auto, using(crate::proofs::CleanLaws::derived))]
pub fn derived_contents_stay_below_evaluation()
    ensures based { (X : Frame) (entries : List Entry) → IsLegal X entries → (y : ℕ) → IsDerived (graph X entries) y → val X entries y ≡ equation (kind_at (graph X entries) y) (vals X (take (base X entries y) entries)) }
    ensures bounded { (X : Frame) (entries : List Entry) → IsLegal X entries → (y : ℕ) → IsDerived (graph X entries) y → IsContentAtMost (val X entries y) (equation (kind_at (graph X entries) y) (vals X entries)) }
    ensures below { (X : Frame) (entries : List Entry) → IsLegal X entries → ContentsAtMost (vals X entries) (eval (graph X entries) (sources X entries)) }
    ensures graph { (X : Frame) (entries : List Entry) → IsLegal X entries → IsGraph (graph X entries) }
    ensures long { (X : Frame) (entries : List Entry) → IsLegal X entries → length (vals X entries) ≡ length (graph X entries) }
{}
