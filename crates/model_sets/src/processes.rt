//! The five processes over set states: which rows they give, that they only grow, and that they may be followed by what changed.

ghost use Rattle.std.specs.Prelude.{◌≡◌, ◌≢◌, ℕ, IsTrue, Bool, List, ◌↔◌, ◌⊎◌, nat_lt, if◌then◌else◌};
ghost use Rattle.model_values.specs.Value.{Val, pair};
ghost use Rattle.model_values.specs.Token.{Tok, both};
ghost use Rattle.model_values.specs.Row.{Row};
ghost use Rattle.model_sets.specs.Rows.{mark, HasRow, IsDeadIn, IsAscending, join, IsAtMost};
ghost use Rattle.model_sets.specs.Values.{held, IsHeld, row_values, visible};
ghost use Rattle.model_sets.specs.Equations.{map_set, filter_set, union_set, product_set, intersect_set, changed};

/// Which rows each process gives, and which of them are dead.
#[tactic(auto, using(crate::proofs::WordLaws::words))]
pub fn processes_have_these_rows()
    ensures map { (f : Val → Val) (x : List Row) (w : Val) (t : Tok) → HasRow (map_set f x) w t ↔ ((u : Val) × (f u ≡ w) × HasRow x u t) }
    ensures map_dead { (f : Val → Val) (x : List Row) (w : Val) (t : Tok) → IsDeadIn (map_set f x) w t ↔ ((u : Val) × (f u ≡ w) × IsDeadIn x u t) }
    ensures filter { (p : Val → Bool) (x : List Row) (v : Val) (t : Tok) → HasRow (filter_set p x) v t ↔ (IsTrue (p v) × HasRow x v t) }
    ensures filter_dead { (p : Val → Bool) (x : List Row) (v : Val) (t : Tok) → IsDeadIn (filter_set p x) v t ↔ (IsTrue (p v) × IsDeadIn x v t) }
    ensures union { (x y : List Row) (v : Val) (t : Tok) → HasRow (union_set x y) v t ↔ (HasRow x v t ⊎ HasRow y v t) }
    ensures union_dead { (x y : List Row) (v : Val) (t : Tok) → IsDeadIn (union_set x y) v t ↔ (IsDeadIn x v t ⊎ IsDeadIn y v t) }
    ensures product { (x y : List Row) (v w : Val) (t s : Tok) → HasRow (product_set x y) (pair v w) (both t s) ↔ (HasRow x v t × HasRow y w s) }
    ensures product_dead { (x y : List Row) (v w : Val) (t s : Tok) → IsDeadIn (product_set x y) (pair v w) (both t s) ↔ (HasRow x v t × HasRow y w s × (IsDeadIn x v t ⊎ IsDeadIn y w s)) }
    ensures product_only { (x y : List Row) (u : Val) (r : Tok) → HasRow (product_set x y) u r → (v : Val) × (w : Val) × (t : Tok) × (s : Tok) × (u ≡ pair v w) × (r ≡ both t s) }
    ensures intersection { (x y : List Row) (v : Val) (t s : Tok) → HasRow (intersect_set x y) v (both t s) ↔ (HasRow x v t × HasRow y v s) }
    ensures intersection_dead { (x y : List Row) (v : Val) (t s : Tok) → IsDeadIn (intersect_set x y) v (both t s) ↔ (HasRow x v t × HasRow y v s × (IsDeadIn x v t ⊎ IsDeadIn y v s)) }
    ensures intersection_only { (x y : List Row) (v : Val) (r : Tok) → HasRow (intersect_set x y) v r → (t : Tok) × (s : Tok) × (r ≡ both t s) }
{}

/// Where an input grows, so does the result.
#[tactic(auto, using(crate::proofs::EquationLaws::monotone))]
pub fn processes_are_monotone()
    ensures map { (f : Val → Val) (x y : List Row) → IsAtMost x y → IsAtMost (map_set f x) (map_set f y) }
    ensures filter { (p : Val → Bool) (x y : List Row) → IsAtMost x y → IsAtMost (filter_set p x) (filter_set p y) }
    ensures union { (x z y u : List Row) → IsAtMost x z → IsAtMost y u → IsAtMost (union_set x y) (union_set z u) }
    ensures product { (x z y u : List Row) → IsAtMost x z → IsAtMost y u → IsAtMost (product_set x y) (product_set z u) }
    ensures intersection { (x z y u : List Row) → IsAtMost x z → IsAtMost y u → IsAtMost (intersect_set x y) (intersect_set z u) }
{}

/// The result over a join is the join of the results, in each input.
#[tactic(auto, using(crate::proofs::EquationLaws::joins))]
pub fn processes_send_joins_to_joins()
    ensures map { (f : Val → Val) (x y : List Row) → map_set f (join x y) ≡ join (map_set f x) (map_set f y) }
    ensures filter { (p : Val → Bool) (x y : List Row) → IsAscending x → IsAscending y → filter_set p (join x y) ≡ join (filter_set p x) (filter_set p y) }
    ensures product_left { (x z y : List Row) → product_set (join x z) y ≡ join (product_set x y) (product_set z y) }
    ensures product_right { (x y u : List Row) → product_set x (join y u) ≡ join (product_set x y) (product_set x u) }
    ensures intersection_left { (x z y : List Row) → intersect_set (join x z) y ≡ join (intersect_set x y) (intersect_set z y) }
    ensures intersection_right { (x y u : List Row) → intersect_set x (join y u) ≡ join (intersect_set x y) (intersect_set x u) }
{}

/// What changed from a state to a greater one: the rows that are more, which joined into the first give the second.
#[tactic(auto, using(crate::proofs::EquationLaws::changes))]
pub fn what_changed_is_what_is_more()
    ensures ascends { (s t : List Row) → IsAscending t → IsAscending (changed s t) }
    ensures rows { (s t : List Row) (v : Val) (w : Tok) → mark (changed s t) v w ≡ (if nat_lt (mark s v w) (mark t v w) then mark t v w else 0) }
    ensures joined { (s t : List Row) → IsAscending t → IsAtMost s t → join s (changed s t) ≡ t }
{}

/// A value that only one of a state and a greater one shows is among the values of the changed rows.
#[tactic(auto, using(crate::proofs::UpdateLaws::change_values))]
pub fn changed_rows_have_what_is_shown_anew()
    ensures values { (s t : List Row) → IsAscending s → IsAscending t → IsAtMost s t → (v : Val) → held (visible s) v ≢ held (visible t) v → IsHeld (row_values (changed s t)) v }
{}

/// A process over greater inputs is what it was, joined with what the changed rows give.
#[tactic(auto, using(crate::proofs::EquationLaws::increments))]
pub fn processes_follow_increments()
    ensures map { (f : Val → Val) (x z : List Row) → IsAscending z → IsAtMost x z → map_set f z ≡ join (map_set f x) (map_set f (changed x z)) }
    ensures filter { (p : Val → Bool) (x z : List Row) → IsAscending x → IsAscending z → IsAtMost x z → filter_set p z ≡ join (filter_set p x) (filter_set p (changed x z)) }
    ensures union { (x z y u : List Row) → IsAscending z → IsAscending u → IsAtMost x z → IsAtMost y u → union_set z u ≡ join (union_set x y) (join (changed x z) (changed y u)) }
    ensures product { (x z y u : List Row) → IsAscending z → IsAscending u → IsAtMost x z → IsAtMost y u → product_set z u ≡ join (product_set x y) (join (product_set (changed x z) u) (product_set z (changed y u))) }
    ensures intersection { (x z y u : List Row) → IsAscending z → IsAscending u → IsAtMost x z → IsAtMost y u → intersect_set z u ≡ join (intersect_set x y) (join (intersect_set (changed x z) u) (intersect_set z (changed y u))) }
{}
