//! What the kept parts tell of the journal.

ghost use Rattle.std.specs.Prelude.{◌≡◌, ℕ, ◌<◌, ◌≤◌, ◌↔◌, IsTrue, List, [], length, take, Some};
ghost use Rattle.lasp_replica.specs.Prelude.{Row, IsAscending, IsAtMost, join, changed, Content, of_set, IsContentAtMost, is_set, kind_at, IsDerived, Entry, Frame, vals, val, IsClean, applied, version, IsLegal, version_before, rows_before, held_at, Base, IsRead, Parts, Read, base_at, history_at, first_input, second_input, IsKept, IsStill, rows_since, HasChanged, IsOfItsKind, IsSmallSet};

/// A process is clean exactly where neither input grew since it was read; versions are counts of growths; and a process has what its kind makes of what it read.
pub fn bases_tell_what_is_clean()
    ensures clean { (X : Frame) (entries : List Entry) → IsLegal X entries → (p : Parts) → IsKept X entries p → (y : ℕ) → IsDerived p.graph y → (b : Base) → base_at p.bases y ≡ Some b
        → IsClean X entries y ↔ (IsStill p b.entries (first_input (kind_at p.graph y)) × IsStill p b.entries (second_input (kind_at p.graph y))) }
    ensures applied { (X : Frame) (entries : List Entry) → IsLegal X entries → (p : Parts) → IsKept X entries p → (y : ℕ) → y < length p.graph → (b : Base) → base_at p.bases y ≡ Some b
        → (x : ℕ) → x < length p.graph → applied X entries y x ≡ version_before (history_at p.histories x).growths b.entries }
    ensures version { (X : Frame) (entries : List Entry) (p : Parts) → IsKept X entries p → (x : ℕ) → x < length p.graph → version X entries x ≡ length (history_at p.histories x).growths }
    ensures old { (X : Frame) (entries : List Entry) → IsLegal X entries → (p : Parts) → IsKept X entries p → (y : ℕ) → IsDerived p.graph y → (b : Base) → base_at p.bases y ≡ Some b
        → IsOfItsKind (kind_at p.graph y) (vals X (take b.entries entries)) (held_at p.states y) }
{}

/// The log of a set has what changed since any number of entries, so also since a process last read it.
pub fn histories_tell_what_changed()
    ensures changed { (X : Frame) (entries : List Entry) (p : Parts) → IsKept X entries p → (x : ℕ) → x < length p.graph → IsTrue (is_set (kind_at p.graph x)) → (n : ℕ) → n ≤ length entries
        → HasChanged (val X (take n entries) x) (held_at p.states x).content (rows_since (history_at p.histories x) n) }
    ensures first { (X : Frame) (entries : List Entry) → IsLegal X entries → (p : Parts) → IsKept X entries p → (y : ℕ) → IsDerived p.graph y → (b : Base) → base_at p.bases y ≡ Some b → (r : Read) → IsRead (kind_at p.graph y) (vals X (take b.entries entries)) r
        → HasChanged r.first.content (held_at p.states (first_input (kind_at p.graph y))).content (rows_since (history_at p.histories (first_input (kind_at p.graph y))) b.entries) }
    ensures second { (X : Frame) (entries : List Entry) → IsLegal X entries → (p : Parts) → IsKept X entries p → (y : ℕ) → IsDerived p.graph y → (b : Base) → base_at p.bases y ≡ Some b → (r : Read) → IsRead (kind_at p.graph y) (vals X (take b.entries entries)) r
        → HasChanged r.second.content (held_at p.states (second_input (kind_at p.graph y))).content (rows_since (history_at p.histories (second_input (kind_at p.graph y))) b.entries) }
    ensures all { (X : Frame) (entries : List Entry) (p : Parts) → IsKept X entries p → (x : ℕ) → x < length p.graph → IsTrue (is_set (kind_at p.graph x)) → (n : ℕ) → rows_before (history_at p.histories x).growths n ≡ 0
        → (held_at p.states x).content.rows ≡ rows_since (history_at p.histories x) n }
    ensures small { (X : Frame) (entries : List Entry) → IsLegal X entries → (p : Parts) → IsKept X entries p → (x : ℕ) → x < length p.graph → IsTrue (is_set (kind_at p.graph x)) → IsSmallSet (held_at p.states x) }
{}

/// What is new of a result is what is new of the rows that were gained, and nothing is new exactly where the result is at most what stands.
pub fn news_are_what_is_gained()
    ensures gain { (old present gain : List Row) → IsAtMost old present → IsAscending gain → IsAscending (join old gain) → changed present (join old gain) ≡ changed present gain }
    ensures none { (s t : Content) → t ≡ of_set t.rows → (changed s.rows t.rows ≡ []) ↔ IsContentAtMost t s }
{}
