//! Cases of threshold reads.

ghost use Rattle.std.specs.Prelude.{◌≡◌, [], ◌∷◌, codes, Ok, Err};
ghost use Rattle.model_world.specs.declared.stop.Stop.TheVariants.{NotReached};
ghost use Rattle.model_examples.specs.Case.{told, lines};
ghost use Rattle.model_examples.specs.Graphs.{counter_graph};
ghost use Rattle.model_examples.specs.Reads.{even_graph, pending_script, missed_script, reached_script, added_script, removed_script};

/// A read is told by what its node shows at the end, so that of two nodes one may have come to the threshold. An await stops the run where its threshold is not met. A set is at its threshold of removed values, and above a mark, only after the remove.
#[tactic(auto, using(crate::proofs::ReadLaws::reads))]
pub fn reads_are_told_at_the_end_and_an_await_is_told_at_once()
    ensures pending { told counter_graph pending_script ≡ Ok (lines (codes "known 0 1 0" ∷ codes "known 1 1 1" ∷ codes "read 0 pending" ∷ codes "read 1 reached" ∷ [])) }
    ensures missed { told counter_graph missed_script ≡ Err (NotReached 2) }
    ensures reached { told counter_graph reached_script ≡ Ok (lines (codes "known 0 1" ∷ [])) }
    ensures added { told even_graph added_script ≡ Ok (lines (codes "known 0 1" ∷ codes "read 0 reached" ∷ codes "read 1 pending" ∷ codes "read 2 pending" ∷ [])) }
    ensures removed { told even_graph removed_script ≡ Ok (lines (codes "known 0 2" ∷ codes "read 0 reached" ∷ codes "read 1 reached" ∷ codes "read 2 reached" ∷ [])) }
{}
