//! A case of a graph that grows.

ghost use Rattle.std.specs.Prelude.{◌≡◌, [], ◌∷◌, codes, Ok};
ghost use Rattle.model_examples.specs.Case.{told, lines};
ghost use Rattle.model_examples.specs.Graphs.{set_graph};
ghost use Rattle.model_examples.specs.Growth.{growth_script};

/// A message that was sent before a set was declared is taken after it, and leaves the new set as it is.
#[tactic(auto, using(crate::proofs::GrowthLaws::growth))]
pub fn a_graph_may_grow_while_messages_are_on_their_way()
    ensures grown { told set_graph growth_script ≡ Ok (lines (codes "1 a [5]" ∷ codes "1 b [7]" ∷ codes "known 0 1 0" ∷ codes "known 1 1 1" ∷ [])) }
{}
