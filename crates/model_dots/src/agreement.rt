//! Replicas without tombstones beside those of the run.

ghost use Rattle.std.specs.Prelude.{◌≡◌, ℕ, ◌<◌, List};
ghost use Rattle.model_sets.specs.Values.{visible};
ghost use Rattle.model_graph.specs.Evaluation.{rows_at};
ghost use Rattle.model_world.specs.Command.{Command};
ghost use Rattle.model_world.specs.World.{Run, peer_at};
ghost use Rattle.model_dots.specs.DotWorld.{one_set, dots_at, StandsFor, LacksTheRemoved, dot_start, AreDotCommands, dot_play};
ghost use Rattle.model_dots.specs.Unlimited.{IsUnlimited};

/// After every lawful list of adds, removes, sends and deliveries, whatever is lost, comes again or comes late and however large sets and messages grow, each replica's state is the live rows and the counts of the replica with tombstones, and shows the same values. A row of any replica whose update the state counts and that it doesn't have is dead at that replica with tombstones.
#[tactic(auto, using(crate::proofs::AgreeLaws::agreement))]
pub fn replicas_without_tombstones_stand_for_those_with_them()
    ensures stands { (nodes : ℕ) (commands : List Command) (run : Run) → IsUnlimited one_set nodes commands run → AreDotCommands commands → (p : ℕ) → p < nodes
        → StandsFor (dots_at (dot_play (dot_start nodes) commands).nodes p) (peer_at run.peers p) }
    ensures shown { (nodes : ℕ) (commands : List Command) (run : Run) → IsUnlimited one_set nodes commands run → AreDotCommands commands → (p : ℕ) → p < nodes
        → visible (dots_at (dot_play (dot_start nodes) commands).nodes p).rows ≡ visible (rows_at (peer_at run.peers p).contents 0) }
    ensures removed { (nodes : ℕ) (commands : List Command) (run : Run) → IsUnlimited one_set nodes commands run → AreDotCommands commands → (p q : ℕ) → p < nodes → q < nodes
        → LacksTheRemoved (dots_at (dot_play (dot_start nodes) commands).nodes p) (peer_at run.peers p) (peer_at run.peers q) }
{}
