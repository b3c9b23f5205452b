//! Where runs stop.

ghost use Rattle.std.specs.Prelude.{◌≡◌, ℕ, ◌<◌, List, length, Err};
ghost use Rattle.model_graph.specs.Graph.{Decl};
ghost use Rattle.model_world.specs.Command.{Script};
ghost use Rattle.model_world.specs.Lawful.{IsLawful};
ghost use Rattle.model_world.specs.World.{ended};
ghost use Rattle.model_world.specs.declared.stop.Stop.TheVariants.{TooLarge};
ghost use Rattle.model_scripts.specs.Progress.{grown};

/// Where a variable stops the run of a lawful script, the variable is one of the graph with all that the script declares, so it has a name there.
#[tactic(auto, using(crate::proofs::StopLaws::stop_laws))]
pub fn runs_stop_at_declared_variables()
    ensures declared { (g : List Decl) (script : Script) (c p x : ℕ) → IsLawful g script → ended g script ≡ Err (TooLarge c p x) → x < length (grown g script.commands) }
{}
