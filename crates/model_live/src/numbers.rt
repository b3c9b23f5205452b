//! The numbers of messages.

ghost use Rattle.std.specs.Prelude.{◌≡◌, ◌+◌, ◌<◌, ◌++◌, ◌∷◌, [], ℕ, List, IsTrue, length};
ghost use Rattle.model_journal.specs.Entry.{Entry};
ghost use Rattle.model_graph.specs.Message.{Message};
ghost use Rattle.model_live.specs.Lived.{numbers_of_one, first_number, is_of, heard_of, numbered};

/// A message's number tells its sender, and no other. What was heard of a node goes on as the journal does.
pub fn numbers_tell_the_sender()
    ensures own { (q k : ℕ) → k < numbers_of_one → IsTrue (is_of q (first_number q + k)) }
    ensures one { (p q i : ℕ) → IsTrue (is_of p i) → IsTrue (is_of q i) → p ≡ q }
    ensures heard { (q : ℕ) (entries more : List Entry) → heard_of q (entries ++ more) ≡ heard_of q entries ++ heard_of q more }
    ensures next { (i : ℕ) (ms : List Message) (m : Message) → numbered i (ms ++ m ∷ []) ≡ numbered i ms ++ (i + length ms, m) ∷ [] }
{}
