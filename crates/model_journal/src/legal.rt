//! Which entries are legal after legal ones, and what one more does to the applied versions.

ghost use Rattle.std.specs.Prelude.{◌≡◌, ℕ, max, List, [], ◌∷◌, ◌++◌, take, ◌↔◌};
ghost use Rattle.model_journal.specs.Entry.{Bind, Entry, Frame};
ghost use Rattle.model_journal.specs.Journal.{journal};
ghost use Rattle.model_journal.specs.Clean.{version, applied};
ghost use Rattle.model_journal.specs.Legal.{IsLawful, BringsValid, IsValidSnapshot, IsWithinLimits, IsLegal};

/// The first entries of a legal list are legal, and legal entries may be followed by a lawful one that leaves everything valid.
#[tactic(auto, using(crate::proofs::LegalLaws::legal))]
pub fn legal_entries_go_one_by_one()
    ensures first { (X : Frame) (entries more : List Entry) → IsLegal X (entries ++ more) → IsLegal X entries }
    ensures last { (X : Frame) (entries : List Entry) (e : Entry) → IsLegal X (entries ++ e ∷ []) → IsLawful X (journal X entries) e.act }
    ensures valid { (X : Frame) (entries : List Entry) (e : Entry) → IsLegal X (entries ++ e ∷ []) → IsValidSnapshot X.nodes (journal X (entries ++ e ∷ [])).now }
    ensures push { (X : Frame) (entries : List Entry) (e : Entry) → IsLegal X entries → IsLawful X (journal X entries) e.act → IsValidSnapshot X.nodes (journal X (entries ++ e ∷ [])).now → IsLegal X (entries ++ e ∷ []) }
{}

/// After valid contents a lawful entry that brings nothing invalid leaves valid ones exactly where no content comes to have too many rows or elements and no replica passes its updates.
pub fn lawful_entries_stay_valid_within_the_limits()
    ensures valid { (X : Frame) (entries : List Entry) → IsLegal X entries → IsValidSnapshot X.nodes (journal X entries).now }
    ensures step { (X : Frame) (entries : List Entry) → IsLegal X entries → (e : Entry) → IsLawful X (journal X entries) e.act → BringsValid X.nodes e.act
        → IsValidSnapshot X.nodes (journal X (entries ++ e ∷ [])).now ↔ IsWithinLimits (journal X (entries ++ e ∷ [])).now }
    ensures push { (X : Frame) (entries : List Entry) → IsLegal X entries → (e : Entry) → IsLawful X (journal X entries) e.act → BringsValid X.nodes e.act → IsWithinLimits (journal X (entries ++ e ∷ [])).now → IsLegal X (entries ++ e ∷ []) }
{}

/// A bind raises what its variable has applied to the versions that it read; no other entry changes it.
#[tactic(auto, using(crate::proofs::LegalLaws::applied_versions))]
pub fn binds_apply_the_versions_that_they_read()
    ensures applied { (X : Frame) (entries : List Entry) (e : Entry) → IsLegal X (entries ++ e ∷ []) → (y x n : ℕ) → e.act ≡ Bind y n → applied X (entries ++ e ∷ []) y x ≡ max (version X (take n entries) x) (applied X entries y x) }
    ensures others { (X : Frame) (entries : List Entry) (e : Entry) → IsLegal X (entries ++ e ∷ []) → (y x : ℕ) → ((n : ℕ) → e.act ≡ Bind y n → ⊥) → applied X (entries ++ e ∷ []) y x ≡ applied X entries y x }
{}
