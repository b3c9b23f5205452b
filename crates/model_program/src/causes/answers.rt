//! What the program's words come to over told contents, cause by cause. The causes stand in the order in which they are looked for, each with the premises that those before it don't come.

ghost use Rattle.std.specs.Prelude.{◌≡◌, ◌<◌, ℕ, List, length, Option, Some, Ok, Err};
ghost use Rattle.model_functions.specs.Library.{Library};
ghost use Rattle.model_graph.specs.Graph.{Decl, name_at};
ghost use Rattle.model_world.specs.Command.{Script};
ghost use Rattle.model_world.specs.World.{Run, ended};
ghost use Rattle.model_world.specs.Report.{report_of};
ghost use Rattle.model_world.specs.declared.stop.Stop.{Stop};
ghost use Rattle.model_world.specs.declared.stop.Stop.TheVariants as stop;
ghost use Rattle.model_readings.specs.Graph.{graph_of};
ghost use Rattle.model_readings.specs.declared.graph_why.GraphWhy.{GraphWhy};
ghost use Rattle.model_scripts.specs.Progress.{grown};
ghost use Rattle.model_scripts.specs.Script.{script_of};
ghost use Rattle.model_scripts.specs.declared.script_why.ScriptWhy.{ScriptWhy};
ghost use Rattle.model_program.specs.Told.{IsFileTold, IsGraphTold, IsScriptTold};
ghost use Rattle.model_program.specs.Check.{check_text};
ghost use Rattle.model_program.specs.Plan.{Exactly, told_answer, word_at, file_limit};
ghost use Rattle.model_program.specs.Program.{form, plan, IsUsageForm, stopped};
ghost use Rattle.model_program.specs.declared.form.Form.TheVariants.{Plain, Check};
ghost use Rattle.model_program.specs.declared.refusal.Refusal.TheVariants as refusal;

/// The words, and then in the form `plain GRAPH SCRIPT` the graph's file, the graph, the script's file, the script and the run.
pub fn causes_of_answers()
    ensures usage { (lib : Library) (content : List ℕ → Option (List ℕ)) (words : List (List ℕ)) → IsUsageForm (form words)
        → told_answer content words (plan lib words) ≡ Some (Err refusal.Usage) }
    ensures graph_too_long { (lib : Library) (content : List ℕ → Option (List ℕ)) (words : List (List ℕ)) (graph : List ℕ) → form words ≡ Plain
        → content (word_at words 1) ≡ Some graph → file_limit < length graph
        → told_answer content words (plan lib words) ≡ Some (Err (refusal.TooLong 1)) }
    ensures graph_refused { (lib : Library) (content : List ℕ → Option (List ℕ)) (words : List (List ℕ)) (graph : List ℕ) (number : ℕ) (why : GraphWhy) → form words ≡ Plain
        → IsFileTold content words 1 graph → graph_of lib graph ≡ Err (number, why)
        → told_answer content words (plan lib words) ≡ Some (Err (refusal.Graph number why)) }
    ensures script_too_long { (lib : Library) (content : List ℕ → Option (List ℕ)) (words : List (List ℕ)) (script : List ℕ) (g : List Decl) → form words ≡ Plain
        → IsGraphTold lib content words g → content (word_at words 2) ≡ Some script → file_limit < length script
        → told_answer content words (plan lib words) ≡ Some (Err (refusal.TooLong 2)) }
    ensures script_refused { (lib : Library) (content : List ℕ → Option (List ℕ)) (words : List (List ℕ)) (script : List ℕ) (g : List Decl) (number : ℕ) (why : ScriptWhy) → form words ≡ Plain
        → IsGraphTold lib content words g → IsFileTold content words 2 script → script_of lib g script ≡ Err (number, why)
        → told_answer content words (plan lib words) ≡ Some (Err (refusal.Script number why)) }
    ensures run_stopped { (lib : Library) (content : List ℕ → Option (List ℕ)) (words : List (List ℕ)) (g : List Decl) (s : Script) (halt : Stop) → form words ≡ Plain
        → IsGraphTold lib content words g → IsScriptTold lib content words g s → ended g s ≡ Err halt
        → told_answer content words (plan lib words) ≡ Some (Err (stopped (grown g s.commands) halt)) }
    ensures too_large { (lib : Library) (content : List ℕ → Option (List ℕ)) (words : List (List ℕ)) (g : List Decl) (s : Script) (command at x : ℕ) → form words ≡ Plain
        → IsGraphTold lib content words g → IsScriptTold lib content words g s → ended g s ≡ Err (stop.TooLarge command at x)
        → told_answer content words (plan lib words) ≡ Some (Err (refusal.TooLarge command at (name_at (grown g s.commands) x))) }
    ensures network_full { (lib : Library) (content : List ℕ → Option (List ℕ)) (words : List (List ℕ)) (g : List Decl) (s : Script) (command : ℕ) → form words ≡ Plain
        → IsGraphTold lib content words g → IsScriptTold lib content words g s → ended g s ≡ Err (stop.NetworkFull command)
        → told_answer content words (plan lib words) ≡ Some (Err (refusal.NetworkFull command)) }
    ensures not_reached { (lib : Library) (content : List ℕ → Option (List ℕ)) (words : List (List ℕ)) (g : List Decl) (s : Script) (command : ℕ) → form words ≡ Plain
        → IsGraphTold lib content words g → IsScriptTold lib content words g s → ended g s ≡ Err (stop.NotReached command)
        → told_answer content words (plan lib words) ≡ Some (Err (refusal.NotReached command)) }
    ensures reported { (lib : Library) (content : List ℕ → Option (List ℕ)) (words : List (List ℕ)) (g : List Decl) (s : Script) (run : Run) → form words ≡ Plain
        → IsGraphTold lib content words g → IsScriptTold lib content words g s → ended g s ≡ Ok run
        → told_answer content words (plan lib words) ≡ Some (Ok (Exactly (report_of run))) }
{}

/// In the form `check GRAPH` the graph's file and the graph; no script is read.
pub fn causes_of_checks()
    ensures graph_too_long { (lib : Library) (content : List ℕ → Option (List ℕ)) (words : List (List ℕ)) (graph : List ℕ) → form words ≡ Check
        → content (word_at words 1) ≡ Some graph → file_limit < length graph
        → told_answer content words (plan lib words) ≡ Some (Err (refusal.TooLong 1)) }
    ensures graph_refused { (lib : Library) (content : List ℕ → Option (List ℕ)) (words : List (List ℕ)) (graph : List ℕ) (number : ℕ) (why : GraphWhy) → form words ≡ Check
        → IsFileTold content words 1 graph → graph_of lib graph ≡ Err (number, why)
        → told_answer content words (plan lib words) ≡ Some (Err (refusal.Graph number why)) }
    ensures checked { (lib : Library) (content : List ℕ → Option (List ℕ)) (words : List (List ℕ)) (g : List Decl) → form words ≡ Check
        → IsGraphTold lib content words g
        → told_answer content words (plan lib words) ≡ Some (Ok (Exactly (check_text g))) }
{}
