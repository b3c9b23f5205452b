//! A program in whole: three nodes that show the advertisements under a contract, until they were shown often enough.

ghost use Rattle.std.specs.Prelude.{◌≡◌, [], ◌∷◌, codes, Ok};
ghost use Rattle.model_examples.specs.Case.{told, lines};
ghost use Rattle.model_examples.specs.Advertisements.{advertisement_graph, advertisement_script};

/// Every node shows the advertisements that have a contract. When the total of the counts that two nodes made has come to 3 at node 0, it takes one advertisement away, and it goes from every node.
#[tactic(auto, using(crate::proofs::AdvertisementLaws::advertisements))]
pub fn advertisements_under_contract_are_shown()
    ensures shown { told advertisement_graph advertisement_script ≡ Ok (lines (codes "0 shown [[10,\"red\"],[11,\"blue\"]]" ∷ codes "1 shown [[10,\"red\"],[11,\"blue\"]]" ∷ codes "2 shown [[10,\"red\"],[11,\"blue\"]]" ∷ codes "0 shown [[11,\"blue\"]]" ∷ codes "1 shown [[11,\"blue\"]]" ∷ codes "2 shown [[11,\"blue\"]]" ∷ codes "0 hits 3" ∷ codes "known 0 2 2 3" ∷ codes "known 1 2 2 3" ∷ codes "known 2 2 2 3" ∷ [])) }
{}
