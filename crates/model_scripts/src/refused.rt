//! Scripts are refused exactly at the first of their commands that is refused.

ghost use Rattle.std.specs.Prelude.{◌≡◌, ◌↔◌, ℕ, List, [], ◌∷◌, None, Some, Ok, Err};
ghost use Rattle.serde_json.specs.Data.{Data, Items};
ghost use Rattle.serde_json.specs.Find.{as_array};
ghost use Rattle.model_functions.specs.Library.{Library};
ghost use Rattle.model_graph.specs.Graph.{Decl};
ghost use Rattle.model_readings.specs.Tree.{json_of, list_of};
ghost use Rattle.model_scripts.specs.declared.script_why.ScriptWhy.{ScriptWhy};
ghost use Rattle.model_scripts.specs.declared.script_why.ScriptWhy.TheVariants as why;
ghost use Rattle.model_scripts.specs.Progress.{Progress, opening};
ghost use Rattle.model_scripts.specs.Script.{script_from, script_of, nodes_of, commands_read};
ghost use Rattle.model_scripts.specs.First.{AreRead, IsRefused};

/// The bytes of a script are refused with number 0 where they aren't JSON, or no array that begins with the number of nodes; its commands exactly at the first that is refused behind those before it. They are accepted exactly where each is.
pub fn scripts_are_refused_at_their_first_refusal()
    ensures not_json { (lib : Library) (g : List Decl) (bytes : List ℕ) → json_of bytes ≡ None → script_of lib g bytes ≡ Err (0, why.NotJson) }
    ensures not_array { (lib : Library) (g : List Decl) (bytes : List ℕ) (tree : Data) → json_of bytes ≡ Some tree → as_array tree ≡ None → script_of lib g bytes ≡ Err (0, why.Shape) }
    ensures empty { (lib : Library) (g : List Decl) (bytes : List ℕ) (tree : Data) (items : Items) → json_of bytes ≡ Some tree → as_array tree ≡ Some items → list_of items ≡ []
        → script_of lib g bytes ≡ Err (0, why.Shape) }
    ensures no_nodes { (lib : Library) (g : List Decl) (bytes : List ℕ) (tree : Data) (items : Items) (d : Data) (ds : List Data) → json_of bytes ≡ Some tree → as_array tree ≡ Some items → list_of items ≡ d ∷ ds
        → nodes_of d ≡ None → script_of lib g bytes ≡ Err (0, why.Shape) }
    ensures command_refused { (lib : Library) (g : List Decl) (bytes : List ℕ) (tree : Data) (items : Items) (d : Data) (ds : List Data) (nodes number : ℕ) (cause : ScriptWhy) → json_of bytes ≡ Some tree → as_array tree ≡ Some items → list_of items ≡ d ∷ ds
        → nodes_of d ≡ Some nodes → commands_read lib nodes (opening g) ds ≡ Err (number, cause) → script_of lib g bytes ≡ Err (number, cause) }
    ensures commands_accepted { (lib : Library) (g : List Decl) (bytes : List ℕ) (tree : Data) (items : Items) (d : Data) (ds : List Data) (nodes : ℕ) (last : Progress) → json_of bytes ≡ Some tree → as_array tree ≡ Some items → list_of items ≡ d ∷ ds
        → nodes_of d ≡ Some nodes → commands_read lib nodes (opening g) ds ≡ Ok last → script_of lib g bytes ≡ Ok (script_from nodes last.commands) }
    ensures refused { (lib : Library) (nodes : ℕ) (p : Progress) (ds : List Data) (number : ℕ) (cause : ScriptWhy) → (commands_read lib nodes p ds ≡ Err (number, cause) ↔ IsRefused lib nodes p ds number cause) }
    ensures accepted { (lib : Library) (nodes : ℕ) (p : Progress) (ds : List Data) (last : Progress) → (commands_read lib nodes p ds ≡ Ok last ↔ AreRead lib nodes p ds last) }
{}
