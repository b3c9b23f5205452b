//! What the processes keep, and that any rows that make the difference serve as a change. There is nothing to run here.

ghost use Rattle.std.specs.Prelude.{◌≡◌, ℕ, ◌+◌, max, Bool, List};
ghost use Rattle.lasp_setops.specs.Prelude.{Val, Row, MapOp, mapped, IsAscending, IsAtMost, map_set, filter_set, union_set, product_set, intersect_set, changed, IsSetOfWidth, IsGrown};

/// The results are of the width that their inputs have: of the greater one in a union, of both together in a product and an intersection.
#[tactic(auto, using(crate::proofs::WidthLaws::widths))]
pub fn processes_keep_widths()
    ensures map { (w : ℕ) (ops : List MapOp) (x : List Row) → IsSetOfWidth w x → IsSetOfWidth w (map_set (mapped ops) x) }
    ensures filter { (w : ℕ) (p : Val → Bool) (x : List Row) → IsSetOfWidth w x → IsSetOfWidth w (filter_set p x) }
    ensures union { (w u : ℕ) (x y : List Row) → IsSetOfWidth w x → IsSetOfWidth u y → IsSetOfWidth (max w u) (union_set x y) }
    ensures product { (w u : ℕ) (x y : List Row) → IsSetOfWidth w x → IsSetOfWidth u y → IsSetOfWidth (w + u) (product_set x y) }
    ensures intersection { (w u : ℕ) (x y : List Row) → IsSetOfWidth w x → IsSetOfWidth u y → IsSetOfWidth (w + u) (intersect_set x y) }
{}

/// What changed from a state to a greater one is a change by which the first became the second.
#[tactic(auto, using(crate::proofs::GrownLaws::changes))]
pub fn processes_follow_any_change()
    ensures changed { (before after : List Row) → IsAscending before → IsAscending after → IsAtMost before after → IsGrown before (changed before after) after }
{}
