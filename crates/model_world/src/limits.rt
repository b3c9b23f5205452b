//! The limits of scripts.

ghost use Rattle.std.specs.Prelude.{◌≡◌, ℕ, ◌+◌, ◌≤◌, List, ◌++◌, length, filter};
ghost use Rattle.model_graph.specs.Graph.{Decl};
ghost use Rattle.model_world.specs.Command.{Command, Script};
ghost use Rattle.model_world.specs.Lawful.{node_limit, mark_limit, read_limit, is_mark, is_read, IsWithinLimits};
ghost use Rattle.model_world.specs.World.{Run, start};
ghost use Rattle.model_world.specs.Stops.{IsAfter};

/// A run has a mark for each command that marks and a read for each command that opens one. So at each place of a script within its limits there are no more nodes, marks and reads than these.
pub fn runs_keep_the_limits_of_their_scripts()
    ensures marked { (c : ℕ) (run last : Run) (done : List Command) → IsAfter c run done last → length last.marks ≡ length run.marks + length (filter is_mark done) }
    ensures opened { (c : ℕ) (run last : Run) (done : List Command) → IsAfter c run done last → length last.reads ≡ length run.reads + length (filter is_read done) }
    ensures nodes { (g : List Decl) (script : Script) → IsWithinLimits script → (done rest : List Command) → done ++ rest ≡ script.commands → (last : Run) → IsAfter 1 (start g script.nodes) done last → length last.peers ≤ node_limit }
    ensures marks { (g : List Decl) (script : Script) → IsWithinLimits script → (done rest : List Command) → done ++ rest ≡ script.commands → (last : Run) → IsAfter 1 (start g script.nodes) done last → length last.marks ≤ mark_limit }
    ensures reads { (g : List Decl) (script : Script) → IsWithinLimits script → (done rest : List Command) → done ++ rest ≡ script.commands → (last : Run) → IsAfter 1 (start g script.nodes) done last → length last.reads ≤ read_limit }
{}
