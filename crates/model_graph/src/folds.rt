//! The numbers that folds combine.

ghost use Rattle.std.specs.Prelude.{◌≡◌, pos, IsTrue, List, fold};
ghost use Rattle.model_values.specs.Value.{Val};
ghost use Rattle.model_values.specs.Row.{Row};
ghost use Rattle.model_functions.specs.Lift.{LiftOp, lifted};
ghost use Rattle.model_sets.specs.Rows.{IsAscending, IsAtMost};
ghost use Rattle.model_sets.specs.Values.{visible, row_values};
ghost use Rattle.model_sets.specs.Equations.{changed};
ghost use Rattle.model_sets.specs.Folds.{IsFoldGroup, corrected};
ghost use Rattle.model_graph.specs.Graph.{FoldOp};
ghost use Rattle.model_graph.specs.Lawful.{IsFoldOp};
ghost use Rattle.model_graph.specs.Fold.{taken, combined, inverse, is_member, fold_rows};

/// A fold combines a commutative group: all numbers for a sum, those of 128 bits for a xor, the remainders for a modulo. Every lift, as the fold takes it, is one of them.
#[tactic(auto, using(crate::proofs::GroupLaws::fold_groups))]
pub fn folds_combine_a_group()
    ensures group { (op : FoldOp) → IsFoldOp op → IsFoldGroup (is_member op) (combined op) (pos 0) (inverse op) }
    ensures lifts { (op : FoldOp) → IsFoldOp op → (lift : LiftOp) (v : Val) → IsTrue (is_member op (taken op (lifted lift v))) }
{}

/// The number of a fold over a set that grew is the number before, corrected for the values of the changed rows alone, each once.
pub fn folds_follow_changed_rows()
    ensures after { (op : FoldOp) → IsFoldOp op → (lift : LiftOp) (s t : List Row) → IsAscending s → IsAscending t → IsAtMost s t
        → fold (corrected (combined op) (inverse op) (λ v. taken op (lifted lift v)) (visible s) (visible t)) (fold_rows op lift s) (row_values (changed s t)) ≡ fold_rows op lift t }
{}
