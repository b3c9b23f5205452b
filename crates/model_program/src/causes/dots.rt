//! What the form `dots SCRIPT` comes to over told contents, cause by cause, in the order in which they are looked for, and how its calls may end.

ghost use Rattle.std.specs.Prelude.{◌≡◌, ◌<◌, ◌+◌, ◌++◌, ℕ, List, length, Option, Result, Some, Ok, Err};
ghost use Rattle.model_functions.specs.Library.{Library};
ghost use Rattle.model_world.specs.Command.{Script};
ghost use Rattle.model_world.specs.Report.{report_of};
ghost use Rattle.model_world.specs.World.{Run, start, ended};
ghost use Rattle.model_scripts.specs.Script.{script_of};
ghost use Rattle.model_scripts.specs.declared.script_why.ScriptWhy.{ScriptWhy};
ghost use Rattle.model_dots.specs.DotReport.{live_lines, dot_output};
ghost use Rattle.model_dots.specs.DotWorld.{one_set, AreDotCommands};
ghost use Rattle.model_dots.specs.Unlimited.{unlimited};
ghost use Rattle.model_dots.specs.Words.{IsFirstOther};
ghost use Rattle.model_program.specs.Dots.{IsDotStatus};
ghost use Rattle.model_program.specs.Ends.{Writing, Ends};
ghost use Rattle.model_program.specs.Follows.{View, Follows};
ghost use Rattle.model_program.specs.Plan.{Exactly, told_answer, word_at, file_limit};
ghost use Rattle.model_program.specs.Program.{form, plan};
ghost use Rattle.model_program.specs.Told.{IsFileTold, IsDotsTold};
ghost use Rattle.model_program.specs.declared.failure.Failure.{Failure};
ghost use Rattle.model_program.specs.declared.form.Form.TheVariants.{Dots};
ghost use Rattle.model_program.specs.declared.refusal.Refusal.TheVariants as refusal;

/// The script's file, the script, and its first command of another word. What is written of any other is the report of the script's run over the graph of one set and how many live rows each node's set has, whether that run comes to its end or is told as if no limit stopped it.
pub fn causes_of_dots()
    ensures script_too_long { (lib : Library) (content : List ℕ → Option (List ℕ)) (words : List (List ℕ)) (script : List ℕ) → form words ≡ Dots
        → content (word_at words 1) ≡ Some script → file_limit < length script
        → told_answer content words (plan lib words) ≡ Some (Err (refusal.TooLong 1)) }
    ensures script_refused { (lib : Library) (content : List ℕ → Option (List ℕ)) (words : List (List ℕ)) (script : List ℕ) (number : ℕ) (why : ScriptWhy) → form words ≡ Dots
        → IsFileTold content words 1 script → script_of lib one_set script ≡ Err (number, why)
        → told_answer content words (plan lib words) ≡ Some (Err (refusal.Script number why)) }
    ensures other_word { (lib : Library) (content : List ℕ → Option (List ℕ)) (words : List (List ℕ)) (s : Script) (place : ℕ) → form words ≡ Dots
        → IsDotsTold lib content words s → IsFirstOther s.commands place
        → told_answer content words (plan lib words) ≡ Some (Err (refusal.NotDots (1 + place))) }
    ensures written { (lib : Library) (content : List ℕ → Option (List ℕ)) (words : List (List ℕ)) (s : Script) → form words ≡ Dots
        → IsDotsTold lib content words s → AreDotCommands s.commands
        → told_answer content words (plan lib words) ≡ Some (Ok (Exactly (dot_output s.nodes s.commands))) }
    ensures reported { (lib : Library) (content : List ℕ → Option (List ℕ)) (words : List (List ℕ)) (s : Script) (run : Run) → form words ≡ Dots
        → IsDotsTold lib content words s → AreDotCommands s.commands → ended one_set s ≡ Ok run
        → told_answer content words (plan lib words) ≡ Some (Ok (Exactly (report_of run ++ live_lines 0 run.peers))) }
    ensures unlimited { (lib : Library) (content : List ℕ → Option (List ℕ)) (words : List (List ℕ)) (s : Script) (run : Run) → form words ≡ Dots
        → IsDotsTold lib content words s → AreDotCommands s.commands → run ≡ unlimited (start one_set s.nodes) s.commands
        → told_answer content words (plan lib words) ≡ Some (Ok (Exactly (report_of run ++ live_lines 0 run.peers))) }
{}

/// No graph is read, no run stops and no file is joined in, so there is no status for any of these.
pub fn dots_ends_with_few_statuses()
    ensures { (lib : Library) (words : List (List ℕ)) (v : View) (answer : Result (List ℕ) Failure) (out err : Writing) (status : ℕ) → form words ≡ Dots
        → Follows words v (plan lib words) answer → Ends words answer out err status → IsDotStatus status }
{}
