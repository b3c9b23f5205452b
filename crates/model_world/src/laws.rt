//! The laws of runs. Each is the contract of a function that does nothing.

ghost use Rattle.std.specs.Prelude.{◌≡◌, ℕ, List, Ok, Err, ◌↔◌};
ghost use Rattle.model_graph.specs.Limit.{IsFirstLarge};
ghost use Rattle.model_world.specs.Command.{Command};
ghost use Rattle.model_world.specs.World.{Run, Point, Take, act, peer_at, delivered, sent_number, play};
ghost use Rattle.model_world.specs.Stops.{StopsAt, EndsAt, IsFirstShown, AreAllWithinLimit};
ghost use Rattle.model_world.specs.declared.stop.Stop.{Stop};
ghost use Rattle.model_world.specs.declared.stop.Stop.TheVariants.{TooLarge};

/// A run stops exactly where its worlds say: at the first command that can't be done.
pub fn runs_stop_at_their_first_stop()
    ensures stops { (c : ℕ) (run : Run) (commands : List Command) (stop : Stop) → (play c run commands ≡ Err stop ↔ StopsAt c run commands stop) }
    ensures ends { (c : ℕ) (run last : Run) (commands : List Command) → (play c run commands ≡ Ok last ↔ EndsAt c run commands last) }
{}

/// A point stops a run exactly where a node shows too many rows of a variable: at the first such node, and there at the first such variable. A delivery does at the first variable that comes to have too many.
pub fn points_and_deliveries_stop_at_what_is_too_large()
    ensures point { (c : ℕ) (run : Run) (stop : Stop) → act c run Point ≡ Err stop ↔ ((p : ℕ) × (x : ℕ) × (stop ≡ TooLarge c p x) × IsFirstShown run.graph run.peers p x) }
    ensures passed { (c : ℕ) (run last : Run) → act c run Point ≡ Ok last ↔ ((last ≡ run) × AreAllWithinLimit run.graph run.peers) }
    ensures delivery { (c p i : ℕ) (run : Run) (stop : Stop) → act c run (Take p i) ≡ Err stop ↔ ((x : ℕ) × (stop ≡ TooLarge c p x) × IsFirstLarge (delivered run.graph (sent_number run.sent i) (peer_at run.peers p)).contents x) }
{}
