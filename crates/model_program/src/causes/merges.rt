//! What the form `merge GRAPH FILE ..` comes to over told contents, cause by cause, in the order in which they are looked for.

ghost use Rattle.std.specs.Prelude.{◌≡◌, ◌<◌, ◌++◌, ℕ, List, [], ◌∷◌, length, Option, Some, None, Ok, Err};
ghost use Rattle.model_functions.specs.Library.{Library};
ghost use Rattle.model_graph.specs.Evaluation.{eval, first_large};
ghost use Rattle.model_graph.specs.Graph.{Decl, name_at};
ghost use Rattle.model_graph.specs.Message.{Message};
ghost use Rattle.model_readings.specs.Graph.{graph_of};
ghost use Rattle.model_readings.specs.declared.graph_why.GraphWhy.{GraphWhy};
ghost use Rattle.model_wire.specs.Message.{decoded};
ghost use Rattle.model_wire.specs.declared.wire_why.WireWhy.{WireWhy};
ghost use Rattle.model_program.specs.Told.{IsFileTold, IsGraphTold, IsOfGraph, IsOfNodes, AreJoined};
ghost use Rattle.model_program.specs.Merge.{file_at, joined, merge_text};
ghost use Rattle.model_program.specs.Plan.{Exactly, told_answer, word_at, file_limit};
ghost use Rattle.model_program.specs.Program.{form, plan};
ghost use Rattle.model_program.specs.declared.form.Form.TheVariants.{Merge};
ghost use Rattle.model_program.specs.declared.refusal.Refusal.TheVariants as refusal;
ghost use Rattle.model_program.specs.declared.state_why.StateWhy.TheVariants.{Wire, WrongGraph};

/// The graph's file and the graph; then file by file whether it is too long, whether it is a message, of the graph and of as many nodes as the first, and whether a source becomes too large; and behind the last file whether a variable is.
pub fn causes_of_merges()
    ensures graph_too_long { (lib : Library) (content : List ℕ → Option (List ℕ)) (words : List (List ℕ)) (graph : List ℕ) → form words ≡ Merge
        → content (word_at words 1) ≡ Some graph → file_limit < length graph
        → told_answer content words (plan lib words) ≡ Some (Err (refusal.TooLong 1)) }
    ensures graph_refused { (lib : Library) (content : List ℕ → Option (List ℕ)) (words : List (List ℕ)) (graph : List ℕ) (number : ℕ) (why : GraphWhy) → form words ≡ Merge
        → IsFileTold content words 1 graph → graph_of lib graph ≡ Err (number, why)
        → told_answer content words (plan lib words) ≡ Some (Err (refusal.Graph number why)) }
    ensures file_too_long { (lib : Library) (content : List ℕ → Option (List ℕ)) (words : List (List ℕ)) (g : List Decl) (before : List Message) (bytes : List ℕ) → form words ≡ Merge
        → IsGraphTold lib content words g → AreJoined g content words before → file_at (length before) < length words
        → content (word_at words (file_at (length before))) ≡ Some bytes → file_limit < length bytes
        → told_answer content words (plan lib words) ≡ Some (Err (refusal.TooLong (file_at (length before)))) }
    ensures no_message { (lib : Library) (content : List ℕ → Option (List ℕ)) (words : List (List ℕ)) (g : List Decl) (before : List Message) (bytes : List ℕ) (place : ℕ) (why : WireWhy) → form words ≡ Merge
        → IsGraphTold lib content words g → AreJoined g content words before → file_at (length before) < length words
        → IsFileTold content words (file_at (length before)) bytes → decoded bytes ≡ Err (place, why)
        → told_answer content words (plan lib words) ≡ Some (Err (refusal.State (file_at (length before)) place (Wire why))) }
    ensures wrong_graph { (lib : Library) (content : List ℕ → Option (List ℕ)) (words : List (List ℕ)) (g : List Decl) (before : List Message) (bytes : List ℕ) (m : Message) → form words ≡ Merge
        → IsGraphTold lib content words g → AreJoined g content words before → file_at (length before) < length words
        → IsFileTold content words (file_at (length before)) bytes → decoded bytes ≡ Ok m → ¬ (IsOfGraph g m × IsOfNodes before m)
        → told_answer content words (plan lib words) ≡ Some (Err (refusal.State (file_at (length before)) 0 WrongGraph)) }
    ensures source_too_large { (lib : Library) (content : List ℕ → Option (List ℕ)) (words : List (List ℕ)) (g : List Decl) (before : List Message) (bytes : List ℕ) (m : Message) (x : ℕ) → form words ≡ Merge
        → IsGraphTold lib content words g → AreJoined g content words before → file_at (length before) < length words
        → IsFileTold content words (file_at (length before)) bytes → decoded bytes ≡ Ok m → IsOfGraph g m → IsOfNodes before m
        → first_large 0 (joined g (before ++ m ∷ [])).contents ≡ Some x
        → told_answer content words (plan lib words) ≡ Some (Err (refusal.TooLarge (length before) 0 (name_at g x))) }
    ensures variable_too_large { (lib : Library) (content : List ℕ → Option (List ℕ)) (words : List (List ℕ)) (g : List Decl) (all : List Message) (x : ℕ) → form words ≡ Merge
        → IsGraphTold lib content words g → AreJoined g content words all → file_at (length all) ≡ length words
        → first_large 0 (eval g (joined g all).contents) ≡ Some x
        → told_answer content words (plan lib words) ≡ Some (Err (refusal.TooLarge (length all) 0 (name_at g x))) }
    ensures merged { (lib : Library) (content : List ℕ → Option (List ℕ)) (words : List (List ℕ)) (g : List Decl) (all : List Message) → form words ≡ Merge
        → IsGraphTold lib content words g → AreJoined g content words all → file_at (length all) ≡ length words
        → first_large 0 (eval g (joined g all).contents) ≡ None
        → told_answer content words (plan lib words) ≡ Some (Ok (Exactly (merge_text g (joined g all)))) }
{}
