//! An example: a message that is lost, and one that comes twice.

ghost use Rattle.std.specs.Prelude.{◌≡◌, pos, false, [], ◌∷◌, ◌++◌};
ghost use Rattle.model_values.specs.Value.{int};
ghost use Rattle.model_values.specs.Token.{single};
ghost use Rattle.model_graph.specs.Evaluation.{rows_at};
ghost use Rattle.model_examples.specs.Losses.{example_commands, example_repeats, example_node};

/// Node 1 has both adds of node 0 by the second message alone; that it comes again changes nothing, nor that the first one comes after all.
#[tactic(auto, using(crate::proofs::LossLaws::example))]
pub fn a_lost_message_is_made_up_for_and_a_repeated_one_does_nothing()
    ensures counts { (example_node example_commands 1).counts ≡ 2 ∷ 1 ∷ [] }
    ensures rows { rows_at (example_node example_commands 1).contents 0 ≡ ((int (pos 5), single 0 1), false) ∷ ((int (pos 5), single 1 1), false) ∷ ((int (pos 7), single 0 2), false) ∷ [] }
    ensures repeats { example_node (example_commands ++ example_repeats) 1 ≡ example_node example_commands 1 }
{}
