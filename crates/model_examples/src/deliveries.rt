//! Cases of two nodes and the messages between them.

ghost use Rattle.std.specs.Prelude.{◌≡◌, [], ◌∷◌, codes, Ok};
ghost use Rattle.model_examples.specs.Losses.{example_graph};
ghost use Rattle.model_examples.specs.Case.{told, lines};
ghost use Rattle.model_examples.specs.Graphs.{set_graph, counter_graph};
ghost use Rattle.model_examples.specs.Deliveries.{crossing_script, late_script, repeated_script, unheard_script, lost_script};

/// An add that the remover had not heard of survives the remove. Messages that come in the other order, or twice, leave what one of each leaves, also of a counter. A message that no one takes brings nothing.
#[tactic(auto, using(crate::proofs::DeliveryLaws::deliveries))]
pub fn messages_may_cross_come_late_and_come_twice()
    ensures survives { told set_graph crossing_script ≡ Ok (lines (codes "0 a [1]" ∷ codes "1 a [1]" ∷ codes "known 0 2 1" ∷ codes "known 1 2 1" ∷ [])) }
    ensures late { told set_graph late_script ≡ Ok (lines (codes "1 a [5,6]" ∷ codes "known 0 2 0" ∷ codes "known 1 2 0" ∷ [])) }
    ensures unheard { told set_graph unheard_script ≡ Ok (lines (codes "1 a []" ∷ codes "known 0 1 0" ∷ codes "known 1 0 0" ∷ [])) }
    ensures lost { told example_graph lost_script ≡ Ok (lines (codes "1 a [5,7]" ∷ codes "known 0 2 0" ∷ codes "known 1 2 1" ∷ [])) }
    ensures repeated { told counter_graph repeated_script ≡ Ok (lines (codes "0 c 3" ∷ codes "1 c 7" ∷ codes "known 0 1 0" ∷ codes "known 1 1 1" ∷ [])) }
{}
