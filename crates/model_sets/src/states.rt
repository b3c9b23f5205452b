//! Set states: a lattice under the join, in which a state is told by its marks.

ghost use Rattle.std.specs.Prelude.{◌≡◌, IsTrue, ◌↔◌, List, [], ◌∷◌, ◌++◌};
ghost use Rattle.model_values.specs.Value.{Val};
ghost use Rattle.model_values.specs.Token.{Tok};
ghost use Rattle.model_values.specs.Row.{Row};
ghost use Rattle.model_sets.specs.Rows.{mark, IsAscending, put, of_rows, join, IsAtMost};
ghost use Rattle.model_sets.specs.Tests.{is_at_most, is_within};
ghost use Rattle.model_sets.specs.Values.{IsWithin};

/// Set states are a lattice: the join is the least upper bound of the order.
#[tactic(auto, using(crate::proofs::RowLaws::lattice))]
pub fn states_are_a_lattice()
    ensures ascends { (s t : List Row) → IsAscending (join s t) }
    ensures idempotent { (s : List Row) → IsAscending s → join s s ≡ s }
    ensures commutative { (s t : List Row) → join s t ≡ join t s }
    ensures associative { (s t u : List Row) → join (join s t) u ≡ join s (join t u) }
    ensures left { (s t : List Row) → IsAtMost s (join s t) }
    ensures right { (s t : List Row) → IsAtMost t (join s t) }
    ensures least { (s t u : List Row) → IsAtMost s u → IsAtMost t u → IsAtMost (join s t) u }
    ensures at_most { (s t : List Row) → IsAscending t → IsAtMost s t → join s t ≡ t }
    ensures antisymmetric { (s t : List Row) → IsAscending s → IsAscending t → IsAtMost s t → IsAtMost t s → s ≡ t }
{}

/// A state is told by its marks, and joins go row by row and part by part.
#[tactic(auto, using(crate::proofs::RowLaws::parts))]
pub fn joins_go_by_parts()
    ensures same { (s t : List Row) → IsAscending s → IsAscending t → ((v : Val) (w : Tok) → mark s v w ≡ mark t v w) → s ≡ t }
    ensures nothing { (s : List Row) → IsAscending s → join s [] ≡ s }
    ensures row { (s : List Row) (r : Row) → IsAscending s → join s (r ∷ []) ≡ put r s }
    ensures append { (s xs ys : List Row) → join s (xs ++ ys) ≡ join (join s xs) ys }
    ensures any_order { (s t : List Row) → join s (of_rows t) ≡ join s t }
{}

/// The orders can be tested row by row and value by value.
#[tactic(auto, using(crate::proofs::TestLaws::tests))]
pub fn orders_can_be_tested()
    ensures states { (s t : List Row) → IsTrue (is_at_most s t) ↔ IsAtMost s t }
    ensures values { (s t : List Val) → IsTrue (is_within s t) ↔ IsWithin s t }
{}
