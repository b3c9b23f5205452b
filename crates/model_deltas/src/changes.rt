//! What a delta carries.

ghost use Rattle.std.specs.Prelude.{◌≡◌, ◌≢◌, ℕ, ℤ, ◌≤◌, ◌<◌, ◌↔◌, ◌==◌, length, nat_lt, if◌then◌else◌, Option, Some, None};
ghost use Rattle.model_values.specs.Value.{Val};
ghost use Rattle.model_values.specs.Token.{Tok};
ghost use Rattle.model_sets.specs.Rows.{mark};
ghost use Rattle.model_sets.specs.Values.{IsHeld};
ghost use Rattle.model_states.specs.Counts.{count_at};
ghost use Rattle.model_states.specs.Content.{Content, join_contents, IsContentAtMost, IsOrdered};
ghost use Rattle.model_graph.specs.Message.{Message, sent_at};
ghost use Rattle.model_wire.specs.Lawful.{IsMessage};
ghost use Rattle.model_deltas.specs.Delta.{Delta, changed_content, delta_of};
ghost use Rattle.model_deltas.specs.Before.{IsBefore, IsDelta};

/// What changed in a source is what is more, and no more than that: rows that are new or newly dead, elements that are new, counts and a number that are other ones. Joined into what the source held before it gives what it holds after.
#[tactic(auto, using(crate::proofs::ChangeLaws::changes))]
pub fn changes_make_up_the_difference()
    ensures rows { (s t : Content) (v : Val) (w : Tok) → mark (changed_content s t).rows v w ≡ (if nat_lt (mark s.rows v w) (mark t.rows v w) then mark t.rows v w else 0) }
    ensures values { (s t : Content) (v : Val) → IsHeld (changed_content s t).values v ↔ (IsHeld t.values v × (IsHeld s.values v → ⊥)) }
    ensures counts { (s t : Content) (node : ℕ) → count_at (changed_content s t).counts node ≡ (if count_at s.counts node == count_at t.counts node then 0 else count_at t.counts node) }
    ensures top { (s t : Content) (n : ℤ) → (changed_content s t).top ≡ Some n ↔ ((t.top ≡ Some n) × (s.top ≢ Some n)) }
    ensures joined { (s t : Content) → IsOrdered t → length s.counts ≤ length t.counts → IsContentAtMost s t → join_contents s (changed_content s t) ≡ t }
    ensures ordered { (s t : Content) → IsOrdered t → IsOrdered (changed_content s t) }
{}

/// The delta between two messages of one sender is within the ranges of its format, and has what changed in each of the later message's sources.
#[tactic(auto, using(crate::proofs::DeltaLaws::deltas))]
pub fn deltas_are_within_the_format()
    ensures lawful { (before after : Message) → IsMessage before → IsMessage after → IsBefore before after → IsDelta (delta_of before after) }
    ensures source { (before after : Message) (i : ℕ) → i < length after.sources → sent_at (delta_of before after).sources i ≡ changed_content (sent_at before.sources i) (sent_at after.sources i) }
    ensures length { (before after : Message) → length (delta_of before after).sources ≡ length after.sources }
{}
