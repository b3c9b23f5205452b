//! The words that nodes know which run beside each other.

ghost use Rattle.std.specs.Prelude.{◌≡◌, ◌↔◌, ◌+◌, ℕ, List, Some, None};
ghost use Rattle.model_world.specs.Command.{Command};
ghost use Rattle.model_live.specs.Words.{AreLiveFrom, IsFirstOther, first_other};

/// The least command that such nodes don't know is told by its number, the first one having any number.
pub fn the_first_command_of_another_word_is_told()
    ensures other { (number told : ℕ) (commands : List Command) → (first_other number commands ≡ Some told ↔ ((place : ℕ) × (told ≡ number + place) × IsFirstOther number commands place)) }
    ensures none { (number : ℕ) (commands : List Command) → (first_other number commands ≡ None ↔ AreLiveFrom number commands) }
{}
