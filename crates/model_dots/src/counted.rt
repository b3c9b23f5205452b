//! Runs in which nothing is bound.

ghost use Rattle.std.specs.Prelude.{◌≡◌, ℕ, ◌<◌, List, length, true};
ghost use Rattle.model_values.specs.Value.{Val};
ghost use Rattle.model_values.specs.Token.{Tok};
ghost use Rattle.model_sets.specs.Rows.{mark, HasRow, IsDeadIn};
ghost use Rattle.model_graph.specs.Graph.{Decl};
ghost use Rattle.model_graph.specs.Evaluation.{rows_at};
ghost use Rattle.model_world.specs.Command.{Command};
ghost use Rattle.model_world.specs.World.{Run, peer_at};
ghost use Rattle.model_dots.specs.Dots.{is_counted, AreGiven};
ghost use Rattle.model_dots.specs.Counted.{AreFree};
ghost use Rattle.model_dots.specs.Unlimited.{IsUnlimited};

/// Where nothing is bound, each row of a replica has the token of an update that the replica counts. And a row of any replica whose update another one counts, and that is not live there, is dead there: it was removed. No limit stops the run.
#[tactic(auto, using(crate::proofs::CountedLaws::counted))]
pub fn what_is_counted_and_absent_was_removed()
    ensures given { (g : List Decl) (nodes : ℕ) (commands : List Command) (run : Run) → IsUnlimited g nodes commands run → AreFree commands → (p x : ℕ) → p < nodes → x < length run.graph
        → AreGiven (rows_at (peer_at run.peers p).contents x) (peer_at run.peers p).counts }
    ensures removed { (g : List Decl) (nodes : ℕ) (commands : List Command) (run : Run) → IsUnlimited g nodes commands run → AreFree commands → (p q x : ℕ) → p < nodes → q < nodes → x < length run.graph
        → (v : Val) (t : Tok) → HasRow (rows_at (peer_at run.peers q).contents x) v t → is_counted (peer_at run.peers p).counts t ≡ true
        → (mark (rows_at (peer_at run.peers p).contents x) v t ≡ 1 → ⊥) → IsDeadIn (rows_at (peer_at run.peers p).contents x) v t }
{}
