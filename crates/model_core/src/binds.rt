//! What a bind does to its variable, and what is clean after it.

ghost use Rattle.std.specs.Prelude.{◌≡◌, ℕ, ◌<◌, ◌≤◌, ◌↔◌, max, List, [], ◌∷◌, ◌++◌, length, take, slice_set, Some, None};
ghost use Rattle.model_states.specs.Content.{size_of, row_limit};
ghost use Rattle.model_graph.specs.Graph.{kind_at, IsInput};
ghost use Rattle.model_graph.specs.Evaluation.{content_at, equation, eval, first_large};
ghost use Rattle.model_graph.specs.Order.{ContentsAtMost};
ghost use Rattle.model_graph.specs.Lawful.{IsDerived};
ghost use Rattle.model_journal.specs.Entry.{Bind, Entry, Frame};
ghost use Rattle.model_journal.specs.Journal.{graph, vals, val, sources};
ghost use Rattle.model_journal.specs.Clean.{version, applied, base, IsClean};
ghost use Rattle.model_journal.specs.Legal.{IsLegal};

/// A bind raises the base of its variable to what it read, and no other entry changes a base.
#[tactic(auto, using(crate::proofs::BaseLaws::bases))]
pub fn binds_raise_the_base()
    ensures start { (X : Frame) (y : ℕ) → base X [] y ≡ 0 }
    ensures within { (X : Frame) (entries : List Entry) → IsLegal X entries → (y : ℕ) → base X entries y ≤ length entries }
    ensures bind { (X : Frame) (entries : List Entry) (e : Entry) (y n : ℕ) → e.act ≡ Bind y n → base X (entries ++ e ∷ []) y ≡ max n (base X entries y) }
    ensures other { (X : Frame) (entries : List Entry) (e : Entry) (y : ℕ) → ((n : ℕ) → e.act ≡ Bind y n → ⊥) → base X (entries ++ e ∷ []) y ≡ base X entries y }
{}

/// A bind that read no less than the base makes its variable the equation on what it read; one that read less changes nothing.
#[tactic(auto, using(crate::proofs::BaseLaws::binds))]
pub fn binds_set_their_variable()
    ensures later { (X : Frame) (entries : List Entry) → IsLegal X entries → (e : Entry) (y n : ℕ) → e.act ≡ Bind y n → IsDerived (graph X entries) y → base X entries y ≤ n
        → vals X (entries ++ e ∷ []) ≡ slice_set (vals X entries) y (equation (kind_at (graph X entries) y) (vals X (take n entries))) }
    ensures earlier { (X : Frame) (entries : List Entry) → IsLegal X entries → (e : Entry) (y n : ℕ) → e.act ≡ Bind y n → IsDerived (graph X entries) y → n ≤ base X entries y → vals X (entries ++ e ∷ []) ≡ vals X entries }
{}

/// Contents only grow from the first entries on, and the declared variables stay of their kinds.
#[tactic(auto, using(crate::proofs::BaseLaws::earlier))]
pub fn first_entries_stand_below()
    ensures grows { (X : Frame) (entries : List Entry) (n : ℕ) → ContentsAtMost (vals X (take n entries)) (vals X entries) }
    ensures kinds { (X : Frame) (entries more : List Entry) (x : ℕ) → x < length (graph X entries) → kind_at (graph X (entries ++ more)) x ≡ kind_at (graph X entries) x }
{}

/// A variable is clean where no input changed since its base; a bind that read all makes its variable clean, and leaves the clean variables before it clean.
#[tactic(auto, using(crate::proofs::CleanLaws::clean))]
pub fn binds_make_clean()
    ensures applied { (X : Frame) (entries : List Entry) → IsLegal X entries → (y x : ℕ) → applied X entries y x ≡ version X (take (base X entries y) entries) x }
    ensures base { (X : Frame) (entries : List Entry) → IsLegal X entries → (y : ℕ) → IsClean X entries y ↔ ((x : ℕ) → IsInput (kind_at (graph X entries) y) x → version X (take (base X entries y) entries) x ≡ version X entries x) }
    ensures bound { (X : Frame) (entries : List Entry) (e : Entry) (y : ℕ) → IsLegal X (entries ++ e ∷ []) → e.act ≡ Bind y (length entries) → IsClean X (entries ++ e ∷ []) y }
    ensures before { (X : Frame) (entries : List Entry) (e : Entry) (y z n : ℕ) → IsLegal X (entries ++ e ∷ []) → e.act ≡ Bind y n → z < y → IsClean X entries z → IsClean X (entries ++ e ∷ []) z }
{}

/// Where the derived variables before one are clean, all before it are what the plain evaluation of the sources gives; and if its equation on them is too large, it is the first variable of the evaluation that is.
#[tactic(auto, using(crate::proofs::CleanLaws::settled))]
pub fn clean_variables_are_evaluated()
    ensures below { (X : Frame) (entries : List Entry) → IsLegal X entries → (b : ℕ) → ((y : ℕ) → y < b → IsDerived (graph X entries) y → IsClean X entries y)
        → (x : ℕ) → x < b → x < length (graph X entries) → val X entries x ≡ content_at (eval (graph X entries) (sources X entries)) x }
    ensures large { (X : Frame) (entries : List Entry) → IsLegal X entries → (y : ℕ) → ((z : ℕ) → z < y → IsDerived (graph X entries) z → IsClean X entries z) → IsDerived (graph X entries) y
        → row_limit < size_of (equation (kind_at (graph X entries) y) (vals X entries)) → first_large 0 (eval (graph X entries) (sources X entries)) ≡ Some y }
    ensures all { (X : Frame) (entries : List Entry) → IsLegal X entries → ((y : ℕ) → IsDerived (graph X entries) y → IsClean X entries y) → vals X entries ≡ eval (graph X entries) (sources X entries) }
    ensures small { (X : Frame) (entries : List Entry) → IsLegal X entries → ((y : ℕ) → IsDerived (graph X entries) y → IsClean X entries y) → first_large 0 (eval (graph X entries) (sources X entries)) ≡ None }
{}
