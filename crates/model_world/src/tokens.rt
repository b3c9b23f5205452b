//! Whose tokens are whose.

ghost use Rattle.std.specs.Prelude.{◌≡◌, ℕ, ◌<◌, List, length};
ghost use Rattle.model_values.specs.Value.{Val};
ghost use Rattle.model_values.specs.Token.{Tok};
ghost use Rattle.model_graph.specs.Graph.{Decl};
ghost use Rattle.model_graph.specs.Evaluation.{rows_at};
ghost use Rattle.model_graph.specs.Algebra.{AreMarkedSources};
ghost use Rattle.model_world.specs.Command.{Command};
ghost use Rattle.model_world.specs.World.{peer_at};
ghost use Rattle.model_world.specs.Delta.{Delta};
ghost use Rattle.model_world.specs.Follow.{Followed};
ghost use Rattle.model_world.specs.Holds.{IsPlaceOf};
ghost use Rattle.model_world.specs.Owner.{IsOwnedBy, AreOwned, is_dead_in};

/// A token belongs to one variable and one value. A node's sources have tokens of their own alone, and so one test tells of each of them which tokens are dead.
#[tactic(auto, using(crate::proofs::ReportLaws::tokens))]
pub fn tokens_belong_to_one_add()
    ensures once { (all : List (List Delta)) (x y : ℕ) (v w : Val) (t : Tok) → IsOwnedBy all x v t → IsOwnedBy all y w t → (x ≡ y) × (v ≡ w) }
    ensures owned { (g : List Decl) (nodes : ℕ) (commands : List Command) (f : Followed) → IsPlaceOf g nodes commands f → (p x : ℕ) → p < nodes → x < length f.run.graph → AreOwned f.deltas x (rows_at (peer_at f.run.peers p).contents x) }
    ensures marked { (g : List Decl) (nodes : ℕ) (commands : List Command) (f : Followed) → IsPlaceOf g nodes commands f → (p : ℕ) → p < nodes → AreMarkedSources (is_dead_in f.deltas (peer_at f.run.peers p).contents) f.run.graph (peer_at f.run.peers p).contents }
{}
