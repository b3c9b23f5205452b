//! Cases of sources: an idle remove, marks, grow-only sets and registers.

ghost use Rattle.std.specs.Prelude.{◌≡◌, [], ◌∷◌, codes, Ok};
ghost use Rattle.model_examples.specs.Case.{told, lines};
ghost use Rattle.model_examples.specs.Graphs.{set_graph};
ghost use Rattle.model_examples.specs.Sources.{growing_graph, absent_script, bound_script, carried_script, growing_script};

/// A remove of a value that is not there is counted as an update and changes nothing else. A mark that is bound to the set it came from is counted and changes nothing else; bound at another node, it brings the value there. A register has no number before its first and keeps the greatest after that; the elements of a grow-only set stand in order.
#[tactic(auto, using(crate::proofs::SourceLaws::sources))]
pub fn sources_keep_what_they_were_given()
    ensures absent { told set_graph absent_script ≡ Ok (lines (codes "0 a []" ∷ codes "known 0 1" ∷ [])) }
    ensures bound { told set_graph bound_script ≡ Ok (lines (codes "0 a [5]" ∷ codes "known 0 2" ∷ [])) }
    ensures carried { told set_graph carried_script ≡ Ok (lines (codes "1 a [5]" ∷ codes "known 0 1 0" ∷ codes "known 1 0 1" ∷ [])) }
    ensures growing { told growing_graph growing_script ≡ Ok (lines (codes "0 m null" ∷ codes "0 m -5" ∷ codes "0 g [\"a\",\"b\"]" ∷ codes "known 0 4" ∷ [])) }
{}
