//! What accepted scripts are.

ghost use Rattle.std.specs.Prelude.{◌≡◌, ℕ, List, Ok};
ghost use Rattle.model_functions.specs.Library.{Library};
ghost use Rattle.model_graph.specs.Graph.{Decl};
ghost use Rattle.model_readings.specs.Lawful.{IsGraph, FitsAll};
ghost use Rattle.model_world.specs.Command.{Script};
ghost use Rattle.model_world.specs.Lawful.{IsLawful, IsWithinLimits};
ghost use Rattle.model_scripts.specs.Progress.{grown};
ghost use Rattle.model_scripts.specs.Script.{script_of};

/// Each command of an accepted script may be done in its turn: its node, variable, mark and message are there, its operation is one of the variable's kind, its values and numbers are in range, and what it declares may follow. The script keeps the limits. Where the graph is one that may be accepted, so is what the script makes of it, with functions of the library.
pub fn accepted_scripts_are_lawful()
    ensures lawful { (lib : Library) (g : List Decl) (bytes : List ℕ) (s : Script) → script_of lib g bytes ≡ Ok s → IsLawful g s }
    ensures limits { (lib : Library) (g : List Decl) (bytes : List ℕ) (s : Script) → script_of lib g bytes ≡ Ok s → IsWithinLimits s }
    ensures graph { (lib : Library) (g : List Decl) (bytes : List ℕ) (s : Script) → script_of lib g bytes ≡ Ok s → IsGraph g
        → IsGraph (grown g s.commands) }
    ensures fits { (lib : Library) (g : List Decl) (bytes : List ℕ) (s : Script) → script_of lib g bytes ≡ Ok s → FitsAll lib g
        → FitsAll lib (grown g s.commands) }
{}
