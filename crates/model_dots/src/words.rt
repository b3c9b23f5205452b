//! Which commands such replicas know.

ghost use Rattle.std.specs.Prelude.{◌≡◌, ◌↔◌, ℕ, ◌+◌, List, Some, None};
ghost use Rattle.model_world.specs.Command.{Command};
ghost use Rattle.model_dots.specs.DotWorld.{AreDotCommands};
ghost use Rattle.model_dots.specs.Words.{first_other, IsFirstOther};

/// A command is told as the first of another word exactly where it is one and those before it aren't, and none is exactly where such replicas know all.
pub fn the_first_command_of_another_word_is_told()
    ensures other { (number told : ℕ) (commands : List Command) → (first_other number commands ≡ Some told ↔ ((place : ℕ) × (told ≡ number + place) × IsFirstOther commands place)) }
    ensures none { (number : ℕ) (commands : List Command) → (first_other number commands ≡ None ↔ AreDotCommands commands) }
{}
