//! The report, from what is known alone.

ghost use Rattle.std.specs.Prelude.{◌≡◌, ℕ, ◌<◌, List, length, Ok};
ghost use Rattle.model_sets.specs.Values.{visible};
ghost use Rattle.model_graph.specs.Graph.{Decl};
ghost use Rattle.model_graph.specs.Evaluation.{content_at, rows_at};
ghost use Rattle.model_graph.specs.Algebra.{values_at, algebra, visible_sets};
ghost use Rattle.model_world.specs.Command.{Command, Script};
ghost use Rattle.model_world.specs.Lawful.{IsLawful};
ghost use Rattle.model_world.specs.Line.{print_line};
ghost use Rattle.model_world.specs.Report.{report_of};
ghost use Rattle.model_world.specs.World.{Run, peer_at, shown_at, ended};
ghost use Rattle.model_world.specs.Direct.{direct_line, known_at, direct_report};
ghost use Rattle.model_world.specs.Follow.{Followed};
ghost use Rattle.model_world.specs.Holds.{IsPlaceOf};

/// What a variable shows at a node is what the plain algebra gives on the visible values of what the node knows of the sources; so is each printed line, and the report of every lawful script whose run comes to its end.
#[tactic(auto, using(crate::proofs::ReportLaws::reports))]
pub fn reports_can_be_told_from_what_is_known()
    ensures shown { (g : List Decl) (nodes : ℕ) (commands : List Command) (f : Followed) → IsPlaceOf g nodes commands f → (p x : ℕ) → p < nodes
        → visible (rows_at (shown_at f.run.graph (peer_at f.run.peers p)) x) ≡ values_at (algebra f.run.graph (visible_sets (known_at nodes f p))) x }
    ensures line { (g : List Decl) (nodes : ℕ) (commands : List Command) (f : Followed) → IsPlaceOf g nodes commands f → (p x : ℕ) → p < nodes → x < length f.run.graph
        → print_line f.run.graph p x (content_at (shown_at f.run.graph (peer_at f.run.peers p)) x) ≡ direct_line f.run.graph p x (known_at nodes f p) }
    ensures report { (g : List Decl) (script : Script) (last : Run) → IsLawful g script → ended g script ≡ Ok last → report_of last ≡ direct_report g script last }
{}
