//! What the form `delta GRAPH SCRIPT` comes to over told contents, cause by cause, in the order in which they are looked for.

ghost use Rattle.std.specs.Prelude.{◌≡◌, ◌<◌, ◌++◌, ℕ, List, length, Option, Some, Ok, Err};
ghost use Rattle.model_functions.specs.Library.{Library};
ghost use Rattle.model_graph.specs.Graph.{Decl};
ghost use Rattle.model_world.specs.Command.{Script};
ghost use Rattle.model_world.specs.Report.{report_of};
ghost use Rattle.model_world.specs.World.{ended};
ghost use Rattle.model_world.specs.declared.stop.Stop.{Stop};
ghost use Rattle.model_deltas.specs.Gossip.{Gossip, gossiped, delta_line};
ghost use Rattle.model_readings.specs.Graph.{graph_of};
ghost use Rattle.model_readings.specs.declared.graph_why.GraphWhy.{GraphWhy};
ghost use Rattle.model_scripts.specs.Progress.{grown};
ghost use Rattle.model_scripts.specs.Script.{script_of};
ghost use Rattle.model_scripts.specs.declared.script_why.ScriptWhy.{ScriptWhy};
ghost use Rattle.model_program.specs.Told.{IsFileTold, IsGraphTold, IsScriptTold};
ghost use Rattle.model_program.specs.Plan.{Exactly, told_answer, word_at, file_limit};
ghost use Rattle.model_program.specs.Program.{form, plan, stopped};
ghost use Rattle.model_program.specs.declared.form.Form.TheVariants.{Delta};
ghost use Rattle.model_program.specs.declared.refusal.Refusal.TheVariants as refusal;

/// The graph's file, the graph, the script's file, the script and the run: a run by deltas stops where the run stops, and where it comes to its end the report is written, and how the messages travelled.
pub fn causes_of_deltas()
    ensures graph_too_long { (lib : Library) (content : List ℕ → Option (List ℕ)) (words : List (List ℕ)) (graph : List ℕ) → form words ≡ Delta
        → content (word_at words 1) ≡ Some graph → file_limit < length graph
        → told_answer content words (plan lib words) ≡ Some (Err (refusal.TooLong 1)) }
    ensures graph_refused { (lib : Library) (content : List ℕ → Option (List ℕ)) (words : List (List ℕ)) (graph : List ℕ) (number : ℕ) (why : GraphWhy) → form words ≡ Delta
        → IsFileTold content words 1 graph → graph_of lib graph ≡ Err (number, why)
        → told_answer content words (plan lib words) ≡ Some (Err (refusal.Graph number why)) }
    ensures script_too_long { (lib : Library) (content : List ℕ → Option (List ℕ)) (words : List (List ℕ)) (script : List ℕ) (g : List Decl) → form words ≡ Delta
        → IsGraphTold lib content words g → content (word_at words 2) ≡ Some script → file_limit < length script
        → told_answer content words (plan lib words) ≡ Some (Err (refusal.TooLong 2)) }
    ensures script_refused { (lib : Library) (content : List ℕ → Option (List ℕ)) (words : List (List ℕ)) (script : List ℕ) (g : List Decl) (number : ℕ) (why : ScriptWhy) → form words ≡ Delta
        → IsGraphTold lib content words g → IsFileTold content words 2 script → script_of lib g script ≡ Err (number, why)
        → told_answer content words (plan lib words) ≡ Some (Err (refusal.Script number why)) }
    ensures run_stopped { (lib : Library) (content : List ℕ → Option (List ℕ)) (words : List (List ℕ)) (g : List Decl) (s : Script) (halt : Stop) → form words ≡ Delta
        → IsGraphTold lib content words g → IsScriptTold lib content words g s → ended g s ≡ Err halt
        → told_answer content words (plan lib words) ≡ Some (Err (stopped (grown g s.commands) halt)) }
    ensures written { (lib : Library) (content : List ℕ → Option (List ℕ)) (words : List (List ℕ)) (g : List Decl) (s : Script) (run : Gossip) → form words ≡ Delta
        → IsGraphTold lib content words g → IsScriptTold lib content words g s → gossiped g s ≡ Ok run
        → told_answer content words (plan lib words) ≡ Some (Ok (Exactly (report_of run.run ++ delta_line run))) }
{}
