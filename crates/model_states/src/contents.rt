//! Contents: a lattice under the join, in which a content is told by its keys.

ghost use Rattle.std.specs.Prelude.{◌≡◌, ℕ, ◌≤◌, max, IsTrue, ◌↔◌, length};
ghost use Rattle.model_sets.specs.Rows.{IsAtMost};
ghost use Rattle.model_sets.specs.Values.{IsWithin};
ghost use Rattle.model_states.specs.Counts.{AreCountsAtMost};
ghost use Rattle.model_states.specs.Register.{IsNotLater};
ghost use Rattle.model_states.specs.Content.{Content, least, join_contents, Key, content_mark, IsContentAtMost, is_content_at_most, IsOrdered};

/// Each key of a join has the greater of the two numbers, and ordered contents that agree at each key are the same. The order is that of the parts, and can be tested.
#[tactic(auto, using(crate::proofs::ContentLaws::keys))]
pub fn contents_are_told_by_keys()
    ensures join { (s t : Content) (k : Key) → content_mark (join_contents s t) k ≡ max (content_mark s k) (content_mark t k) }
    ensures least { (k : Key) → content_mark least k ≡ 0 }
    ensures same { (s t : Content) → IsOrdered s → IsOrdered t → length s.counts ≡ length t.counts → ((k : Key) → content_mark s k ≡ content_mark t k) → s ≡ t }
    ensures parts { (s t : Content) → IsContentAtMost s t ↔ (IsAtMost s.rows t.rows × IsWithin s.values t.values × AreCountsAtMost s.counts t.counts × IsNotLater s.top t.top) }
    ensures test { (s t : Content) → IsTrue (is_content_at_most s t) ↔ IsContentAtMost s t }
    ensures counts { (s t : Content) → length (join_contents s t).counts ≡ max (length s.counts) (length t.counts) }
{}

/// Contents are a lattice: the join is the least upper bound of the order, and the least content is at most each.
#[tactic(auto, using(crate::proofs::ContentLaws::lattice))]
pub fn contents_are_a_lattice()
    ensures ordered { (s t : Content) → IsOrdered (join_contents s t) }
    ensures idempotent { (s : Content) → IsOrdered s → join_contents s s ≡ s }
    ensures commutative { (s t : Content) → join_contents s t ≡ join_contents t s }
    ensures associative { (s t u : Content) → join_contents (join_contents s t) u ≡ join_contents s (join_contents t u) }
    ensures left { (s t : Content) → IsContentAtMost s (join_contents s t) }
    ensures right { (s t : Content) → IsContentAtMost t (join_contents s t) }
    ensures upper { (s t u : Content) → IsContentAtMost s u → IsContentAtMost t u → IsContentAtMost (join_contents s t) u }
    ensures monotone { (s s' t t' : Content) → IsContentAtMost s s' → IsContentAtMost t t' → IsContentAtMost (join_contents s t) (join_contents s' t') }
    ensures above { (s t : Content) → IsOrdered t → length s.counts ≤ length t.counts → IsContentAtMost s t → join_contents s t ≡ t }
    ensures at_most { (s t : Content) → join_contents s t ≡ t → IsContentAtMost s t }
    ensures reflexive { (s : Content) → IsContentAtMost s s }
    ensures transitive { (s t u : Content) → IsContentAtMost s t → IsContentAtMost t u → IsContentAtMost s u }
    ensures antisymmetric { (s t : Content) → IsOrdered s → IsOrdered t → length s.counts ≡ length t.counts → IsContentAtMost s t → IsContentAtMost t s → s ≡ t }
    ensures bottom { (s : Content) → IsContentAtMost least s }
{}
