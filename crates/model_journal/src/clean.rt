//! What it means that a derived variable is clean.

ghost use Rattle.std.specs.Prelude.{◌≡◌, ℕ, ◌≤◌, List, take, ◌↔◌, ◌⊎◌};
ghost use Rattle.model_graph.specs.Graph.{kind_at};
ghost use Rattle.model_graph.specs.Evaluation.{equation, eval};
ghost use Rattle.model_graph.specs.Lawful.{IsDerived};
ghost use Rattle.model_journal.specs.Entry.{Entry, Frame};
ghost use Rattle.model_journal.specs.Journal.{graph, vals, val, sources};
ghost use Rattle.model_journal.specs.Clean.{version, applied, base, IsClean, HasBind, HasReadPresent, AreInputsLeast};
ghost use Rattle.model_journal.specs.Legal.{IsLegal};

/// A clean variable is its equation on the present contents. Where every derived variable is clean, all are what the plain evaluation of the present sources gives.
#[tactic(auto, using(crate::proofs::CleanLaws::clean))]
pub fn clean_variables_equal_their_equations()
    ensures equal { (X : Frame) (entries : List Entry) → IsLegal X entries → (y : ℕ) → IsDerived (graph X entries) y → IsClean X entries y → val X entries y ≡ equation (kind_at (graph X entries) y) (vals X entries) }
    ensures settled { (X : Frame) (entries : List Entry) → IsLegal X entries → ((y : ℕ) → IsDerived (graph X entries) y → IsClean X entries y) → vals X entries ≡ eval (graph X entries) (sources X entries) }
{}

/// Clean says that some bind of the variable read its inputs as they are now, or that they are all least.
pub fn clean_variables_have_read_their_inputs()
    ensures clean { (X : Frame) (entries : List Entry) → IsLegal X entries → (y : ℕ) → IsClean X entries y ↔ (HasReadPresent X entries y ⊎ AreInputsLeast X entries y) }
{}

/// What a variable has applied of another is the greatest version that one of its binds read, or 0 without a bind; its base is the greatest number of entries that one of its binds read, or 0.
#[tactic(auto, using(crate::proofs::WordLaws::reads))]
pub fn applied_versions_are_the_greatest_read()
    ensures greatest { (X : Frame) (entries : List Entry) → IsLegal X entries → (y x n : ℕ) → HasBind entries y n → version X (take n entries) x ≤ applied X entries y x }
    ensures reached { (X : Frame) (entries : List Entry) → IsLegal X entries → (y x : ℕ) → ((n : ℕ) × HasBind entries y n × (applied X entries y x ≡ version X (take n entries) x)) ⊎ (applied X entries y x ≡ 0) }
    ensures base_greatest { (X : Frame) (entries : List Entry) (y n : ℕ) → HasBind entries y n → n ≤ base X entries y }
    ensures base_reached { (X : Frame) (entries : List Entry) (y : ℕ) → HasBind entries y (base X entries y) ⊎ (base X entries y ≡ 0) }
{}
