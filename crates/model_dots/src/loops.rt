//! What loops over rows compute.

ghost use Rattle.std.specs.Prelude.{◌≡◌, ◌↔◌, IsTrue};
ghost use Rattle.model_dots.specs.Dots.{Dots, IsState, HaveSameNodes, join_dots, IsAtMost};
ghost use Rattle.model_dots.specs.Loops.{weave, is_at_most};

/// The rows of two states side by side are those of their join, and the order can be tested row by row.
#[tactic(auto, using(crate::proofs::LoopLaws::dots_loops))]
pub fn loops_compute_the_definitions()
    ensures join { (s t : Dots) → IsState s → IsState t → weave s.counts t.counts s.rows t.rows ≡ (join_dots s t).rows }
    ensures order { (s t : Dots) → IsState s → IsState t → HaveSameNodes s t → IsTrue (is_at_most s t) ↔ IsAtMost s t }
{}
