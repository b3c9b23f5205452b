//! The causes of the answers to `trace`, `load` and `live`.

ghost use Rattle.std.specs.Prelude.{◌≡◌, ◌↔◌, ℕ, List, Option, Some};
ghost use Rattle.model_functions.specs.Library.{Library};
ghost use Rattle.model_program.specs.Plan.{Answer, told_answer};
ghost use Rattle.model_program.specs.Threads.{tracing, loading};
ghost use Rattle.model_program.specs.Live.{HasLiveCause, living};
ghost use Rattle.model_program.specs.Top.{HasTraceCause, HasLoadCause};

/// Over told contents an answer to `trace` comes exactly where it has its cause, an answer to `load` exactly where it has its own, whatever is told, and one to `live` where it has its own, whichever node failed.
pub fn threaded_answers_come_exactly_where_they_have_a_cause()
    ensures trace { (lib : Library) (content : List ℕ → Option (List ℕ)) (words : List (List ℕ)) (answer : Answer)
        → (told_answer content words (tracing lib) ≡ Some answer ↔ HasTraceCause lib content words answer) }
    ensures load { (lib : Library) (seed count : ℕ) (content : List ℕ → Option (List ℕ)) (words : List (List ℕ)) (answer : Answer)
        → (told_answer content words (loading lib seed count) ≡ Some answer ↔ HasLoadCause lib seed count answer) }
    ensures live { (lib : Library) (content : List ℕ → Option (List ℕ)) (words : List (List ℕ)) (failed : Option ℕ) (answer : Answer)
        → (told_answer content words (living lib failed) ≡ Some answer ↔ HasLiveCause lib content words failed answer) }
{}
