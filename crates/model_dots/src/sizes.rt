//! How much is counted.

ghost use Rattle.std.specs.Prelude.{ℕ, ◌<◌, ◌≤◌, List};
ghost use Rattle.model_states.specs.Counts.{count_at};
ghost use Rattle.model_world.specs.Command.{Command, Script};
ghost use Rattle.model_world.specs.Lawful.{IsWithinLimits};
ghost use Rattle.model_dots.specs.Dots.{count_limit};
ghost use Rattle.model_dots.specs.DotWorld.{dots_at, dot_start, dot_play};
ghost use Rattle.model_dots.specs.Sizes.{updates};

/// No replica counts more updates of one than were made. So none comes to the most that may be counted, whatever a script within its limits does.
#[tactic(auto, using(crate::proofs::SizeLaws::sizes))]
pub fn no_more_updates_are_counted_than_were_made()
    ensures made { (nodes : ℕ) (commands : List Command) (p q : ℕ) → count_at (dots_at (dot_play (dot_start nodes) commands).nodes p).counts q ≤ updates commands }
    ensures limit { (script : Script) → IsWithinLimits script → (p q : ℕ) → count_at (dots_at (dot_play (dot_start script.nodes) script.commands).nodes p).counts q < count_limit }
{}
