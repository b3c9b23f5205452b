//! From an answer and a status back to the cause.

ghost use Rattle.std.specs.Prelude.{◌≡◌, ◌↔◌, ◌⊎◌, ℕ, List, Option, Some, Ok, Err};
ghost use Rattle.model_functions.specs.Library.{Library};
ghost use Rattle.model_readings.specs.declared.graph_why.GraphWhy.{GraphWhy};
ghost use Rattle.model_scripts.specs.declared.script_why.ScriptWhy.{ScriptWhy};
ghost use Rattle.model_program.specs.Call.{Reading, view_of, DecidesBy, Writes, Begins, IsPlanned};
ghost use Rattle.model_program.specs.Cause.{HasCause};
ghost use Rattle.model_program.specs.Ends.{Writing, MeetsFault};
ghost use Rattle.model_program.specs.Plan.{Text, Answer, Plan, AreTold, told_answer};
ghost use Rattle.model_program.specs.Program.{form, plan, IsUsageForm};
ghost use Rattle.model_program.specs.declared.refusal.Refusal.TheVariants as refusal;
ghost use Rattle.model_program.specs.declared.state_why.StateWhy.{StateWhy};

/// Over told contents an answer comes exactly where it has its cause.
pub fn answers_come_exactly_where_they_have_a_cause()
    ensures exact { (lib : Library) (content : List ℕ → Option (List ℕ)) (words : List (List ℕ)) (answer : Answer)
        → (told_answer content words (plan lib words) ≡ Some answer ↔ HasCause lib content words answer) }
    ensures usage { (lib : Library) (content : List ℕ → Option (List ℕ)) (words : List (List ℕ)) → (HasCause lib content words (Err refusal.Usage) ↔ IsUsageForm (form words)) }
{}

/// Where the contents decide an answer, each status but 7 tells which: of 0 and 5 a text, of 4 a file that is too long unless a read failed, of the others the refusal with this status. It holds of every plan, and for files of every type.
pub fn statuses_tell_the_answer<F>()
    ensures done { (p : Plan) (words : List (List ℕ)) (files : Reading F) (out err : Writing) (answer : Answer) → IsPlanned p words files out err 0 → DecidesBy p words (view_of files) answer
        → (text : Text) × (answer ≡ Ok text) × Writes out text }
    ensures usage { (p : Plan) (words : List (List ℕ)) (files : Reading F) (out err : Writing) (answer : Answer) → IsPlanned p words files out err 1 → DecidesBy p words (view_of files) answer
        → answer ≡ Err refusal.Usage }
    ensures graph { (p : Plan) (words : List (List ℕ)) (files : Reading F) (out err : Writing) (answer : Answer) → IsPlanned p words files out err 2 → DecidesBy p words (view_of files) answer
        → (number : ℕ) × (why : GraphWhy) × (answer ≡ Err (refusal.Graph number why)) }
    ensures script { (p : Plan) (words : List (List ℕ)) (files : Reading F) (out err : Writing) (answer : Answer) → IsPlanned p words files out err 3 → DecidesBy p words (view_of files) answer
        → ((number : ℕ) × (why : ScriptWhy) × (answer ≡ Err (refusal.Script number why))) ⊎ (((number : ℕ) × (answer ≡ Err (refusal.NotDots number))) ⊎ ((number : ℕ) × (answer ≡ Err (refusal.NotLive number)))) }
    ensures file { (p : Plan) (words : List (List ℕ)) (files : Reading F) (out err : Writing) (answer : Answer) → IsPlanned p words files out err 4 → DecidesBy p words (view_of files) answer
        → ((f : ℕ) × (answer ≡ Err (refusal.TooLong f))) ⊎ MeetsFault words (view_of files) p }
    ensures fault { (p : Plan) (words : List (List ℕ)) (files : Reading F) (out err : Writing) (answer : Answer) → IsPlanned p words files out err 5 → DecidesBy p words (view_of files) answer
        → (text : Text) × (answer ≡ Ok text) × Begins out text }
    ensures limit { (p : Plan) (words : List (List ℕ)) (files : Reading F) (out err : Writing) (answer : Answer) → IsPlanned p words files out err 6 → DecidesBy p words (view_of files) answer
        → ((command : ℕ) × (node : ℕ) × (name : List ℕ) × (answer ≡ Err (refusal.TooLarge command node name))) ⊎ ((command : ℕ) × (answer ≡ Err (refusal.NetworkFull command))) }
    ensures unreached { (p : Plan) (words : List (List ℕ)) (files : Reading F) (out err : Writing) (answer : Answer) → IsPlanned p words files out err 8 → DecidesBy p words (view_of files) answer
        → (command : ℕ) × (answer ≡ Err (refusal.NotReached command)) }
    ensures state { (p : Plan) (words : List (List ℕ)) (files : Reading F) (out err : Writing) (answer : Answer) → IsPlanned p words files out err 9 → DecidesBy p words (view_of files) answer
        → (f : ℕ) × (place : ℕ) × (why : StateWhy) × (answer ≡ Err (refusal.State f place why)) }
{}

/// The contents decide an answer where each file to which the plan of the words comes is told: what is promised of decided answers is then promised of every call.
pub fn told_files_decide_an_answer()
    ensures { (lib : Library) (content : List ℕ → Option (List ℕ)) (words : List (List ℕ)) → AreTold content words (plan lib words)
        → (answer : Answer) × (told_answer content words (plan lib words) ≡ Some answer) }
{}
