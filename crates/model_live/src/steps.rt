//! What a node does by the commands of a script, one after the other.

ghost use Rattle.std.specs.Prelude.{◌≡◌, ◌+◌, ◌++◌, ℕ, List, Some, drop, slice_get, take};
ghost use Rattle.model_world.specs.Command.{Command};
ghost use Rattle.model_live.specs.Steps.{step_at, steps};

/// A command is behind those before it what it is at the node by itself.
pub fn steps_go_on_by_commands()
    ensures next { (p : ℕ) (commands : List Command) (i : ℕ) (k : Command) → slice_get commands i ≡ Some k → steps p 1 (take (i + 1) commands) ≡ steps p 1 (take i commands) ++ step_at p (i + 1) k }
    ensures all { (p : ℕ) (commands : List Command) (i : ℕ) (k : Command) → slice_get commands i ≡ Some k
        → steps p 1 commands ≡ steps p 1 (take i commands) ++ step_at p (i + 1) k ++ steps p (i + 2) (drop (i + 1) commands) }
{}
