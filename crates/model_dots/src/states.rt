//! States: a lattice under the join, in which a state is told by its marks.

ghost use Rattle.std.specs.Prelude.{◌≡◌, ℕ, ◌≤◌, ◌<◌, max, length};
ghost use Rattle.model_values.specs.Value.{Val};
ghost use Rattle.model_values.specs.Token.{Tok};
ghost use Rattle.model_states.specs.Counts.{count_at};
ghost use Rattle.model_dots.specs.Dots.{Dots, count_limit, IsState, HaveSameNodes, no_dots, join_dots, IsAtMost, add_dot, remove_dots, dot_mark};

/// States of equally many nodes are a lattice: the join is the least upper bound of the order.
#[tactic(auto, using(crate::proofs::DotLaws::dots_lattice))]
pub fn states_are_a_lattice()
    ensures state { (s t : Dots) → IsState s → IsState t → HaveSameNodes s t → IsState (join_dots s t) }
    ensures idempotent { (s : Dots) → IsState s → join_dots s s ≡ s }
    ensures commutative { (s t : Dots) → IsState s → IsState t → HaveSameNodes s t → join_dots s t ≡ join_dots t s }
    ensures associative { (s t u : Dots) → IsState s → IsState t → IsState u → HaveSameNodes s t → HaveSameNodes t u → join_dots (join_dots s t) u ≡ join_dots s (join_dots t u) }
    ensures transitive { (s t u : Dots) → IsState s → IsState t → IsState u → HaveSameNodes s t → HaveSameNodes t u → IsAtMost s t → IsAtMost t u → IsAtMost s u }
    ensures antisymmetric { (s t : Dots) → IsState s → IsState t → HaveSameNodes s t → IsAtMost s t → IsAtMost t s → s ≡ t }
    ensures left { (s t : Dots) → IsState s → IsState t → HaveSameNodes s t → IsAtMost s (join_dots s t) }
    ensures right { (s t : Dots) → IsState s → IsState t → HaveSameNodes s t → IsAtMost t (join_dots s t) }
    ensures least { (s t u : Dots) → IsState s → IsState t → IsState u → HaveSameNodes s t → HaveSameNodes t u → IsAtMost s u → IsAtMost t u → IsAtMost (join_dots s t) u }
    ensures lowest { (s t : Dots) → IsState s → IsState t → HaveSameNodes s t → IsAtMost (no_dots (length s.counts)) t }
{}

/// A state is told by its marks, of which a join takes the greater one.
#[tactic(auto, using(crate::proofs::DotLaws::dots_told))]
pub fn states_are_told_by_marks()
    ensures same { (s t : Dots) → IsState s → IsState t → HaveSameNodes s t → ((v : Val) (w : Tok) → dot_mark s v w ≡ dot_mark t v w) → s ≡ t }
    ensures joined { (s t : Dots) → IsState s → IsState t → (v : Val) (w : Tok) → dot_mark (join_dots s t) v w ≡ max (dot_mark s v w) (dot_mark t v w) }
    ensures rises { (s t : Dots) → IsState s → IsState t → IsAtMost s t → (v : Val) (w : Tok) → dot_mark s v w ≤ dot_mark t v w }
    ensures order { (s t : Dots) → IsState s → IsState t → HaveSameNodes s t → ((v : Val) (w : Tok) → dot_mark s v w ≤ dot_mark t v w) → IsAtMost s t }
{}

/// An add and a remove lead from states to states, where the node has a count left.
pub fn updates_lead_to_states()
    ensures add { (v : Val) (node : ℕ) (s : Dots) → IsState s → node < length s.counts → count_at s.counts node < count_limit → IsState (add_dot v node s) }
    ensures remove { (v : Val) (node : ℕ) (s : Dots) → IsState s → node < length s.counts → count_at s.counts node < count_limit → IsState (remove_dots v node s) }
{}

/// An add and a remove lead upwards, where the node has a count left: the state before is at most the one behind.
pub fn updates_lead_upwards()
    ensures add { (v : Val) (node : ℕ) (s : Dots) → IsState s → node < length s.counts → count_at s.counts node < count_limit → IsAtMost s (add_dot v node s) }
    ensures remove { (v : Val) (node : ℕ) (s : Dots) → IsState s → node < length s.counts → count_at s.counts node < count_limit → IsAtMost s (remove_dots v node s) }
{}
