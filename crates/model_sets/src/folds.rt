//! Folds of a commutative group over sets of values, and how they follow a change.

ghost use Rattle.std.specs.Prelude.{◌≡◌, ◌≢◌, ℤ, Bool, List, fold};
ghost use Rattle.model_values.specs.Value.{Val};
ghost use Rattle.model_values.specs.Row.{Row};
ghost use Rattle.model_sets.specs.Rows.{IsAscending, IsAtMost};
ghost use Rattle.model_sets.specs.Values.{held, IsHeld, AreAscending, visible, row_values};
ghost use Rattle.model_sets.specs.Equations.{changed};
ghost use Rattle.model_sets.specs.Folds.{IsFoldGroup, AreLifted, fold_of, fold_set, lacking, corrected};

/// The fold of a set is that of another, without what the first lacks, with what the other lacks. Only the lifts of the values of the two have to be members. Of a set state that only grew, the values of the changed rows are enough.
pub fn folds_follow_a_change()
    ensures change { (member : ℤ → Bool) (op : ℤ → ℤ → ℤ) (neutral : ℤ) (inverse : ℤ → ℤ) → IsFoldGroup member op neutral inverse → (lift : Val → ℤ) → (s t : List Val) → AreLifted member lift s → AreLifted member lift t
        → AreAscending s → AreAscending t
        → fold_of op neutral lift t ≡ op (op (fold_of op neutral lift s) (inverse (fold_of op neutral lift (lacking t s)))) (fold_of op neutral lift (lacking s t)) }
    ensures corrections { (member : ℤ → Bool) (op : ℤ → ℤ → ℤ) (neutral : ℤ) (inverse : ℤ → ℤ) → IsFoldGroup member op neutral inverse → (lift : Val → ℤ) → (s t vs : List Val) → AreLifted member lift s → AreLifted member lift t
        → AreAscending s → AreAscending t → AreAscending vs → ((v : Val) → held s v ≢ held t v → IsHeld vs v)
        → fold (corrected op inverse lift s t) (fold_of op neutral lift s) vs ≡ fold_of op neutral lift t }
    ensures rows { (member : ℤ → Bool) (op : ℤ → ℤ → ℤ) (neutral : ℤ) (inverse : ℤ → ℤ) → IsFoldGroup member op neutral inverse → (lift : Val → ℤ) → (s t : List Row) → AreLifted member lift (visible s) → AreLifted member lift (visible t)
        → IsAscending s → IsAscending t → IsAtMost s t
        → fold (corrected op inverse lift (visible s) (visible t)) (fold_set op neutral lift s) (row_values (changed s t)) ≡ fold_set op neutral lift t }
{}
