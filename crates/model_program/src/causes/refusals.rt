//! Graphs are refused exactly at the first of their declarations that is refused.

ghost use Rattle.std.specs.Prelude.{◌≡◌, ◌↔◌, ℕ, List, [], None, Some, Ok, Err};
ghost use Rattle.serde_json.specs.Data.{Data, Items};
ghost use Rattle.serde_json.specs.Find.{as_array};
ghost use Rattle.model_functions.specs.Library.{Library};
ghost use Rattle.model_graph.specs.Graph.{Decl};
ghost use Rattle.model_readings.specs.Tree.{json_of, list_of};
ghost use Rattle.model_readings.specs.Graph.{graph_of, decls_read};
ghost use Rattle.model_readings.specs.declared.graph_why.GraphWhy.{GraphWhy};
ghost use Rattle.model_readings.specs.declared.graph_why.GraphWhy.TheVariants as graph_why;
ghost use Rattle.model_program.specs.First.{AreDecls, IsRefusedDecl};

/// The bytes of a graph are refused exactly at the first declaration that is refused behind those before it, and accepted exactly where each is accepted.
pub fn graphs_are_refused_at_their_first_refusal()
    ensures not_json { (lib : Library) (bytes : List ℕ) → json_of bytes ≡ None → graph_of lib bytes ≡ Err (0, graph_why.NotJson) }
    ensures not_array { (lib : Library) (bytes : List ℕ) (tree : Data) → json_of bytes ≡ Some tree → as_array tree ≡ None → graph_of lib bytes ≡ Err (0, graph_why.Shape) }
    ensures items { (lib : Library) (bytes : List ℕ) (tree : Data) (items : Items) → json_of bytes ≡ Some tree → as_array tree ≡ Some items
        → graph_of lib bytes ≡ decls_read lib [] (list_of items) }
    ensures refused { (lib : Library) (ds : List Data) (number : ℕ) (why : GraphWhy) → (decls_read lib [] ds ≡ Err (number, why) ↔ IsRefusedDecl lib [] ds number why) }
    ensures accepted { (lib : Library) (ds : List Data) (all : List Decl) → (decls_read lib [] ds ≡ Ok all ↔ AreDecls lib [] ds all) }
{}
