//! Which words have which form.

ghost use Rattle.std.specs.Prelude.{◌≡◌, ◌≢◌, ◌↔◌, ℕ, List};
ghost use Rattle.model_program.specs.Listed.{IsListed};
ghost use Rattle.model_program.specs.Program.{form};
ghost use Rattle.model_program.specs.declared.form.Form.{Form};
ghost use Rattle.model_program.specs.declared.form.Form.TheVariants.{Wrong};

/// Words have a form exactly where they are listed so, and none exactly where they are of no listed form.
pub fn words_have_the_listed_forms()
    ensures listed { (words : List (List ℕ)) (f : Form) → f ≢ Wrong → (form words ≡ f ↔ IsListed words f) }
    ensures wrong { (words : List (List ℕ)) → (form words ≡ Wrong ↔ ((f : Form) → ¬ IsListed words f)) }
{}
