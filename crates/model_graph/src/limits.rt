//! Which variables have too many rows.

ghost use Rattle.std.specs.Prelude.{◌≡◌, ℕ, ◌↔◌, List, Some, None};
ghost use Rattle.model_states.specs.Content.{Content};
ghost use Rattle.model_graph.specs.Evaluation.{first_large};
ghost use Rattle.model_graph.specs.Limit.{AreWithinLimit, IsFirstLarge};

/// The search answers the least variable that has more rows or elements than the limit, and none where no variable does.
pub fn the_least_large_variable_is_found()
    ensures found { (contents : List Content) (x : ℕ) → first_large 0 contents ≡ Some x ↔ IsFirstLarge contents x }
    ensures none { (contents : List Content) → first_large 0 contents ≡ None ↔ AreWithinLimit contents }
{}
