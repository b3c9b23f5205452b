//! What a history says of its variable. There is nothing to run here: each function's contract is a group of laws.

ghost use Rattle.std.specs.Prelude.{◌≡◌, ℕ, ◌<◌, ◌≤◌, ◌↔◌, ◌++◌, ◌∷◌, [], IsTrue, List, length, take, drop};
ghost use Rattle.lasp_replica.specs.Prelude.{Row, IsAscending, of_rows, join, changed, IsContentAtMost, Decl, is_set, kind_at, Entry, Frame, Extend, graph, val, version, IsLegal, History, no_history, grown, version_before, rows_before, IsHistory};

/// The rows since any entry are exactly those by which the set changed since, and the growths are the variable's versions.
#[tactic(auto, using(crate::proofs::HistoryLaws::histories))]
pub fn histories_tell_rows_since()
    ensures version { (X : Frame) (entries : List Entry) (x : ℕ) (h : History) → IsHistory X entries x h → version X entries x ≡ length h.growths }
    ensures still { (X : Frame) (entries : List Entry) (x : ℕ) (h : History) → IsHistory X entries x h → (n : ℕ) → n ≤ length entries → (version_before h.growths n ≡ length h.growths) ↔ (version X (take n entries) x ≡ version X entries x) }
    ensures changed { (X : Frame) (entries : List Entry) (x : ℕ) (h : History) → IsHistory X entries x h → IsTrue (is_set (kind_at (graph X entries) x)) → (n : ℕ) → n ≤ length entries → of_rows (drop (rows_before h.growths n) h.log) ≡ changed (val X (take n entries) x).rows (val X entries x).rows }
{}

/// A declared variable has no history; an entry at which it doesn't grow leaves its history, and one at which it grows adds the rows that are new.
#[tactic(auto, using(crate::proofs::HistoryLaws::fresh))]
pub fn histories_follow_the_journal()
    ensures fresh { (X : Frame) (x : ℕ) → IsHistory X [] x no_history }
    ensures declared { (X : Frame) (entries : List Entry) → IsLegal X entries → (e : Entry) (d : Decl) → e.act ≡ Extend d → IsHistory X (entries ++ e ∷ []) (length (graph X entries)) no_history }
    ensures unmoved { (X : Frame) (entries : List Entry) → IsLegal X entries → (x : ℕ) (h : History) → IsHistory X entries x h → (e : Entry) → x < length (graph X entries) → IsContentAtMost (val X (entries ++ e ∷ []) x) (val X entries x) → IsHistory X (entries ++ e ∷ []) x h }
    ensures joined { (X : Frame) (entries : List Entry) (x : ℕ) (h : History) → IsHistory X entries x h → (e : Entry) → x < length (graph X entries) → (IsContentAtMost (val X (entries ++ e ∷ []) x) (val X entries x) → ⊥) → IsTrue (is_set (kind_at (graph X entries) x)) → (delta : List Row) → IsAscending delta → (val X (entries ++ e ∷ []) x).rows ≡ join (val X entries x).rows delta → IsHistory X (entries ++ e ∷ []) x (grown h (changed (val X entries x).rows delta) (length entries)) }
    ensures plain { (X : Frame) (entries : List Entry) (x : ℕ) (h : History) → IsHistory X entries x h → (e : Entry) → x < length (graph X entries) → (IsContentAtMost (val X (entries ++ e ∷ []) x) (val X entries x) → ⊥) → (IsTrue (is_set (kind_at (graph X entries) x)) → ⊥) → IsHistory X (entries ++ e ∷ []) x (grown h [] (length entries)) }
{}
