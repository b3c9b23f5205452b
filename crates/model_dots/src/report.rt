//! The report of a script over one set.

ghost use Rattle.std.specs.Prelude.{◌≡◌, ◌++◌, ℕ, List, Ok};
ghost use Rattle.model_world.specs.Command.{Command, Script};
ghost use Rattle.model_world.specs.Lawful.{IsLawful};
ghost use Rattle.model_world.specs.Report.{report_of};
ghost use Rattle.model_world.specs.World.{Run, ended};
ghost use Rattle.model_dots.specs.DotReport.{live_lines, dot_output};
ghost use Rattle.model_dots.specs.DotWorld.{one_set, AreDotCommands};
ghost use Rattle.model_dots.specs.Unlimited.{IsUnlimited};

/// Replicas without tombstones print and know, of every lawful script over one set, what its report says, and keep as many pairs as the sets with tombstones have live rows. The run is the one in which nothing stops, or the one that comes to its end.
#[tactic(auto, using(crate::proofs::TextLaws::reports))]
pub fn reports_need_no_tombstones()
    ensures unlimited { (nodes : ℕ) (commands : List Command) (run : Run) → IsUnlimited one_set nodes commands run → AreDotCommands commands → dot_output nodes commands ≡ report_of run ++ live_lines 0 run.peers }
    ensures ended { (script : Script) (last : Run) → IsLawful one_set script → AreDotCommands script.commands → ended one_set script ≡ Ok last → dot_output script.nodes script.commands ≡ report_of last ++ live_lines 0 last.peers }
{}
