//! Cases of one node whose sets are followed through a process.

ghost use Rattle.std.specs.Prelude.{◌≡◌, [], ◌∷◌, codes, Ok};
ghost use Rattle.model_examples.specs.Case.{told, lines};
ghost use Rattle.model_examples.specs.Processes.{union_graph, map_graph, successor_graph, product_graph, intersection_graph, union_script, map_script, successor_script, product_script, intersection_script};

/// A union no longer has what was removed from one side. A map shows a value as long as one that it comes from is left, and stays at the greatest number of 64 bits. A product and an intersection have what both sides still have; a value that is added anew after it was removed is there again.
#[tactic(auto, using(crate::proofs::ProcessLaws::processes))]
pub fn processes_follow_their_sets()
    ensures union { told union_graph union_script ≡ Ok (lines (codes "0 u [2]" ∷ codes "known 0 3" ∷ [])) }
    ensures collided { told map_graph map_script ≡ Ok (lines (codes "0 m [1]" ∷ codes "0 m [1]" ∷ codes "0 m []" ∷ codes "known 0 4" ∷ [])) }
    ensures limit { told successor_graph successor_script ≡ Ok (lines (codes "0 m [9223372036854775807]" ∷ codes "known 0 1" ∷ [])) }
    ensures product { told product_graph product_script ≡ Ok (lines (codes "0 p [[1,\"x\"]]" ∷ codes "known 0 4" ∷ [])) }
    ensures intersection { told intersection_graph intersection_script ≡ Ok (lines (codes "0 i []" ∷ codes "0 i [3]" ∷ codes "known 0 4" ∷ [])) }
{}
