//! That what all updates of a script come to together makes no source too large.

ghost use Rattle.std.specs.Prelude.{◌≡◌, ◌↔◌, ℕ, ◌<◌, ◌≤◌, List, IsTrue, Some, length};
ghost use Rattle.model_graph.specs.Evaluation.{content_at, eval};
ghost use Rattle.model_graph.specs.Graph.{Decl, is_source, kind_at};
ghost use Rattle.model_states.specs.Content.{size_of};
ghost use Rattle.model_world.specs.Command.{Script};
ghost use Rattle.model_live.specs.Together.{full, too_large, IsFirstLargeDerived};
ghost use Rattle.model_live.specs.Words.{AreLive};

/// Where nodes know all commands of a script, a source comes to a row a command at most, and so not to too many: the variable that is too large is the first derived one that is.
pub fn what_is_too_large_is_derived()
    ensures sources { (g : List Decl) (script : Script) (x : ℕ) → x < length g → IsTrue (is_source (kind_at g x)) → size_of (content_at (eval g (full g script)) x) ≤ length script.commands }
    ensures derived { (g : List Decl) (script : Script) (x : ℕ) → AreLive script.commands → (too_large g script ≡ Some x ↔ IsFirstLargeDerived g (eval g (full g script)) x) }
{}
