//! Cases of folds.

ghost use Rattle.std.specs.Prelude.{◌≡◌, [], ◌∷◌, codes, Ok};
ghost use Rattle.model_examples.specs.Case.{told, lines};
ghost use Rattle.model_examples.specs.Folds.{sum_graph, folds_graph, sum_script, folds_script};

/// A value that two nodes added counts once, and not at all after it was removed. A sum, a xor and a remainder take negative numbers as they are.
#[tactic(auto, using(crate::proofs::FoldLaws::folds))]
pub fn folds_count_each_visible_value_once()
    ensures once { told sum_graph sum_script ≡ Ok (lines (codes "0 s 7" ∷ codes "0 s 0" ∷ codes "known 0 2 1" ∷ codes "known 1 1 1" ∷ [])) }
    ensures signed { told folds_graph folds_script ≡ Ok (lines (codes "0 s 4" ∷ codes "0 x -6" ∷ codes "0 r 0" ∷ codes "known 0 2" ∷ [])) }
{}
