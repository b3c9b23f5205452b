//! What is visible, and when the processes show just what the plain operations give.

ghost use Rattle.std.specs.Prelude.{◌≡◌, ℕ, Bool, List, ◌↔◌};
ghost use Rattle.model_values.specs.Value.{Val};
ghost use Rattle.model_values.specs.Token.{Tok};
ghost use Rattle.model_values.specs.Row.{Row};
ghost use Rattle.model_sets.specs.Rows.{IsAscending};
ghost use Rattle.model_sets.specs.Values.{IsHeld, visible};
ghost use Rattle.model_sets.specs.Equations.{map_set, filter_set, union_set, product_set, intersect_set};
ghost use Rattle.model_sets.specs.Algebra.{plain_map, plain_filter, plain_union, plain_product, plain_intersection, IsLive, IsMarkedBy};

/// A value is visible exactly where it has a live row.
#[tactic(auto, using(crate::proofs::WordLaws::visible_words))]
pub fn visible_values_have_a_live_row()
    ensures live { (x : List Row) → IsAscending x → (v : Val) → IsHeld (visible x) v ↔ ((t : Tok) × IsLive x v t) }
{}

/// Where the rows of the inputs are dead exactly by a set of dead tokens, so are those of the result.
#[tactic(auto, using(crate::proofs::AlgebraLaws::marked))]
pub fn processes_keep_dead_tokens()
    ensures map { (dead : ℕ → ℕ → Bool) (f : Val → Val) (x : List Row) → IsMarkedBy dead x → IsMarkedBy dead (map_set f x) }
    ensures filter { (dead : ℕ → ℕ → Bool) (p : Val → Bool) (x : List Row) → IsMarkedBy dead x → IsMarkedBy dead (filter_set p x) }
    ensures union { (dead : ℕ → ℕ → Bool) (x y : List Row) → IsMarkedBy dead x → IsMarkedBy dead y → IsMarkedBy dead (union_set x y) }
    ensures product { (dead : ℕ → ℕ → Bool) (x y : List Row) → IsMarkedBy dead x → IsMarkedBy dead y → IsMarkedBy dead (product_set x y) }
    ensures intersection { (dead : ℕ → ℕ → Bool) (x y : List Row) → IsMarkedBy dead x → IsMarkedBy dead y → IsMarkedBy dead (intersect_set x y) }
{}

/// Then each process shows what the plain operation gives on what its inputs show. A filter, a product and an intersection do so always.
#[tactic(auto, using(crate::proofs::AlgebraLaws::shown))]
pub fn processes_show_the_plain_operations()
    ensures map { (dead : ℕ → ℕ → Bool) (f : Val → Val) (x : List Row) → IsAscending x → IsMarkedBy dead x → visible (map_set f x) ≡ plain_map f (visible x) }
    ensures filter { (p : Val → Bool) (x : List Row) → IsAscending x → visible (filter_set p x) ≡ plain_filter p (visible x) }
    ensures union { (dead : ℕ → ℕ → Bool) (x y : List Row) → IsAscending x → IsAscending y → IsMarkedBy dead x → IsMarkedBy dead y → visible (union_set x y) ≡ plain_union (visible x) (visible y) }
    ensures product { (x y : List Row) → IsAscending x → IsAscending y → visible (product_set x y) ≡ plain_product (visible x) (visible y) }
    ensures intersection { (x y : List Row) → IsAscending x → IsAscending y → visible (intersect_set x y) ≡ plain_intersection (visible x) (visible y) }
{}
