//! Worked scripts and what they are read as, by computation.

ghost use Rattle.std.specs.Prelude.{◌≡◌, pos, negsuc, [], ◌∷◌, codes, Float, replicate, true, is_ok, Ok, Err};
ghost use Rattle.serde_json.specs.Data.{null, number, float};
ghost use Rattle.model_values.specs.Value.{int, pair};
ghost use Rattle.model_values.specs.Value as value;
ghost use Rattle.model_functions.specs.Map.{Abs};
ghost use Rattle.model_graph.specs.Graph.{OrSet, Map};
ghost use Rattle.model_world.specs.Command.{AtLeast, Above, Count, Added, Removed, Add, Remove, Insert, Inc, Max, Mark, Bind, Send, Deliver, Sync, Settle, Print, Read, Await, Declare};
ghost use Rattle.model_scripts.specs.declared.script_why.ScriptWhy.TheVariants as why;
ghost use Rattle.model_scripts.specs.Script.{script_from, word_read, tree_read, script_of};
ghost use Rattle.model_examples.specs.Scripts.{list, text, whole, example_graph, example_library, nodes, call, declaration, told, all_words, behind, any_read, any_mark, any_declaration, example_bytes};
ghost use Rattle.model_examples.specs.Case.{variable};

/// Marks and messages are named by their numbers; three messages stand behind one send and one sync of two nodes; the variable that the script declares is the seventh.
#[tactic(auto, using(crate::proofs::ScriptLaws::examples))]
pub fn a_script_of_all_words_is_read()
    ensures read { told all_words ≡ Ok (script_from 2 (Add 0 0 (int (pos 5)) ∷ Remove 1 1 (pair (int (pos 5)) (value.text (codes "x"))) ∷ Insert 0 3 (value.text (codes "x")) ∷ Inc 1 4 3 ∷ Max 0 5 (negsuc 4) ∷ Mark 0 0 ∷ Bind 1 0 0 ∷ Send 0 ∷ Sync ∷ Deliver 1 2 ∷ Settle ∷ Declare (variable (codes "n") (Map 2 0 (Abs ∷ []))) ∷ Print 0 6 ∷ Read 0 0 (AtLeast 0) ∷ Read 1 0 (Above 0) ∷ Read 1 6 (Added (int (pos 5) ∷ [])) ∷ Await 0 4 (Count 0) ∷ Await 0 2 (Removed []) ∷ [])) }
{}

/// A script that has no right beginning is refused with number 0.
#[tactic(auto, using(crate::proofs::ScriptLaws::examples))]
pub fn scripts_without_a_beginning_are_refused()
    ensures null { tree_read example_library example_graph null ≡ Err (0, why.Shape) }
    ensures empty { tree_read example_library example_graph (list []) ≡ Err (0, why.Shape) }
    ensures no_node { tree_read example_library example_graph (list (nodes 0 ∷ [])) ≡ Err (0, why.Shape) }
    ensures many_nodes { tree_read example_library example_graph (list (nodes 9 ∷ [])) ≡ Err (0, why.Shape) }
    ensures float { (x : Float) → tree_read example_library example_graph (list (list (text (codes "nodes") ∷ number (float x) ∷ []) ∷ [])) ≡ Err (0, why.Shape) }
{}

/// A command is refused with its number, by the first of its checks that fails.
#[tactic(auto, using(crate::proofs::ScriptLaws::examples))]
pub fn commands_are_refused_by_their_first_check()
    ensures second_nodes { told (nodes 2 ∷ []) ≡ Err (1, why.Shape) }
    ensures capital { told (list (text (codes "Sync") ∷ []) ∷ []) ≡ Err (1, why.Shape) }
    ensures mark_name { told (call (codes "mark") 0 (codes "a") (text (codes "K")) ∷ []) ≡ Err (1, why.Shape) }
    ensures no_such_node { told (list (text (codes "settle") ∷ []) ∷ call (codes "add") 2 (codes "z") (whole 1) ∷ []) ≡ Err (2, why.NoSuchNode) }
    ensures unknown_var { told (call (codes "add") 1 (codes "z") (whole 1) ∷ []) ≡ Err (1, why.UnknownVar) }
    ensures unknown_mark { told (call (codes "bind") 0 (codes "u") (text (codes "K")) ∷ []) ≡ Err (1, why.UnknownMark) }
    ensures mark_taken { told (call (codes "mark") 0 (codes "a") (text (codes "k")) ∷ call (codes "mark") 1 (codes "u") (text (codes "k")) ∷ []) ≡ Err (2, why.MarkTaken) }
    ensures wrong_op { told (call (codes "add") 0 (codes "c") null ∷ []) ≡ Err (1, why.WrongOp) }
    ensures other_mark { told (call (codes "mark") 0 (codes "a") (text (codes "k")) ∷ call (codes "read") 0 (codes "b") (list (text (codes "at_least") ∷ text (codes "k") ∷ [])) ∷ []) ≡ Err (2, why.WrongOp) }
    ensures value_refused { told (call (codes "add") 0 (codes "a") null ∷ []) ≡ Err (1, why.ValueRefused) }
    ensures step { told (call (codes "inc") 0 (codes "c") (whole 0) ∷ []) ≡ Err (1, why.ValueRefused) }
    ensures not_sent { told (list (text (codes "sync") ∷ []) ∷ list (text (codes "deliver") ∷ whole 0 ∷ whole 2 ∷ []) ∷ []) ≡ Err (2, why.NotSent) }
{}

/// A declaration is refused as it is in a graph.
#[tactic(auto, using(crate::proofs::ScriptLaws::examples))]
pub fn declarations_of_scripts_are_refused_as_in_graphs()
    ensures shape { told (declaration (text (codes "n") ∷ text (codes "bag") ∷ []) ∷ []) ≡ Err (1, why.Shape) }
    ensures name_shape { told (declaration (text (codes "N") ∷ text (codes "orset") ∷ []) ∷ []) ≡ Err (1, why.NameShape) }
    ensures name_taken { told (declaration (text (codes "a") ∷ text (codes "orset") ∷ []) ∷ []) ≡ Err (1, why.NameTaken) }
    ensures taken_later { told (declaration (text (codes "n") ∷ text (codes "orset") ∷ []) ∷ declaration (text (codes "n") ∷ text (codes "gset") ∷ []) ∷ []) ≡ Err (2, why.NameTaken) }
    ensures unknown_input { told (declaration (text (codes "n") ∷ text (codes "union") ∷ text (codes "c") ∷ text (codes "z") ∷ []) ∷ []) ≡ Err (1, why.UnknownInput) }
    ensures wrong_kind { told (declaration (text (codes "n") ∷ text (codes "map") ∷ text (codes "g") ∷ text (codes "neg") ∷ []) ∷ []) ≡ Err (1, why.WrongKind) }
    ensures unknown_function { told (declaration (text (codes "n") ∷ text (codes "map") ∷ text (codes "a") ∷ text (codes "neg") ∷ []) ∷ []) ≡ Err (1, why.UnknownFunction) }
{}

/// A script as it stands in a file, and one whose array isn't closed.
#[tactic(auto, using(crate::proofs::ByteLaws::bytes))]
pub fn scripts_are_read_from_their_bytes()
    ensures read { script_of example_library example_graph example_bytes ≡ Ok (script_from 2 (Add 0 0 (int (pos 5)) ∷ Mark 0 0 ∷ Sync ∷ Deliver 1 1 ∷ Declare (variable (codes "n") (Map 2 0 (Abs ∷ []))) ∷ Await 1 6 (Added (int (negsuc 4) ∷ [])) ∷ [])) }
    ensures not_json { script_of example_library example_graph (codes "[[\"nodes\",1]") ≡ Err (0, why.NotJson) }
{}

/// The 1,001st read or mark, the 65th declaration of the graph and the command with number 100,000 are refused; a mark has room behind however many reads.
#[tactic(auto, using(crate::proofs::BoundLaws::bounds))]
pub fn commands_past_their_bounds_are_refused()
    ensures reads { word_read example_library 2 (behind 1000 (Read 0 0 (Added [])) example_graph) any_read ≡ Err why.TooMany }
    ensures last_read { is_ok (word_read example_library 2 (behind 999 (Read 0 0 (Added [])) example_graph) any_read) ≡ true }
    ensures mark { is_ok (word_read example_library 2 (behind 1000 (Read 0 0 (Added [])) example_graph) any_mark) ≡ true }
    ensures marks { word_read example_library 2 (behind 1000 (Mark 0 0) example_graph) any_mark ≡ Err why.TooMany }
    ensures declarations { word_read example_library 2 (behind 0 Settle (replicate 64 (variable (codes "a") OrSet))) any_declaration ≡ Err why.TooMany }
    ensures last_declaration { is_ok (word_read example_library 2 (behind 0 Settle (replicate 63 (variable (codes "a") OrSet))) any_declaration) ≡ true }
    ensures commands { word_read example_library 2 (behind 99999 Settle example_graph) any_mark ≡ Err why.TooMany }
{}
