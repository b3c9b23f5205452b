//! What comes of applying a delta, cause by cause.

ghost use Rattle.std.specs.Prelude.{◌≡◌, ℕ, ◌↔◌, Ok, Err, length, max};
ghost use Rattle.model_states.specs.Counts.{count_at, AreCountsAtMost};
ghost use Rattle.model_states.specs.Content.{join_contents};
ghost use Rattle.model_graph.specs.Limit.{AreWithinLimit, IsFirstLarge};
ghost use Rattle.model_graph.specs.Message.{Message, sent_at};
ghost use Rattle.model_wire.specs.Lawful.{IsMessage};
ghost use Rattle.model_deltas.specs.Delta.{Delta, carried};
ghost use Rattle.model_deltas.specs.Applied.{Gap, TooManyRows, IsFirstGap, joined, contents_of, applied};
ghost use Rattle.model_deltas.specs.Before.{IsInOrder, AreAlike, IsDelta};

/// A delta is refused for a gap exactly where the message counts fewer updates of some replica than the delta goes on from, and the least such replica is told with both numbers; else for the least source that comes to be too large; else it is applied, and gives what the message and the delta have together.
pub fn causes_of_refusals()
    ensures gap { (m : Message) (d : Delta) (q have need : ℕ) → applied m d ≡ Err (Gap q have need) ↔ IsFirstGap m.counts d.from q have need }
    ensures large { (m : Message) (d : Delta) (i : ℕ) → applied m d ≡ Err (TooManyRows i) ↔ (AreCountsAtMost d.from m.counts × IsFirstLarge (contents_of (joined m (carried d))) i) }
    ensures done { (m n : Message) (d : Delta) → applied m d ≡ Ok n ↔ (AreCountsAtMost d.from m.counts × AreWithinLimit (contents_of (joined m (carried d))) × (joined m (carried d) ≡ n)) }
{}

/// What two messages have together: of each replica the larger count, as many sources as the one with more has, and of each source the join of what they have of it, of which one that lacks the source has the least; so it is where their sources are in order, as those of messages within the ranges of the format are. A message to which a delta was applied is a message again.
pub fn applied_messages_are_messages()
    ensures counts { (m n : Message) (q : ℕ) → count_at (joined m n).counts q ≡ max (count_at m.counts q) (count_at n.counts q) }
    ensures length { (m n : Message) → length (joined m n).sources ≡ max (length m.sources) (length n.sources) }
    ensures sources { (m n : Message) (i : ℕ) → IsInOrder m → IsInOrder n → sent_at (joined m n).sources i ≡ join_contents (sent_at m.sources i) (sent_at n.sources i) }
    ensures ordered { (m : Message) → IsMessage m → IsInOrder m }
    ensures lawful { (m n : Message) (d : Delta) → IsMessage m → IsDelta d → AreAlike m (carried d) → applied m d ≡ Ok n → IsMessage n }
{}
