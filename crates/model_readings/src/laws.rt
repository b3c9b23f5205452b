//! The laws of reading: what is accepted is lawful. Each is the contract of a function that does nothing.

ghost use Rattle.std.specs.Prelude.{◌≡◌, ℕ, ◌<◌, ◌++◌, [], ◌∷◌, List, length, Ok};
ghost use Rattle.serde_json.specs.Data.{Data};
ghost use Rattle.model_functions.specs.Library.{Library};
ghost use Rattle.model_graph.specs.Graph.{Decl};
ghost use Rattle.model_graph.specs.Lawful.{variable_limit};
ghost use Rattle.model_graph.specs.Lawful as graphs;
ghost use Rattle.model_readings.specs.Graph.{decl_read, graph_of};
ghost use Rattle.model_readings.specs.Lawful.{Fits, IsNext, IsGraph, FitsAll};

/// A declaration that is read may follow those that it is read against, and its function is the library's.
pub fn read_declarations_are_lawful()
    ensures next { (lib : Library) (before : List Decl) (d : Data) (decl : Decl) → decl_read lib before d ≡ Ok decl → IsNext before decl }
    ensures fits { (lib : Library) (before : List Decl) (d : Data) (decl : Decl) → decl_read lib before d ≡ Ok decl → Fits lib decl.kind }
    ensures graph { (before : List Decl) (decl : Decl) → IsGraph before → length before < variable_limit
        → IsNext before decl → IsGraph (before ++ decl ∷ []) }
{}

/// An accepted graph has at most 64 declarations, distinct names of a name's shape, inputs that are earlier sets, variables of width 16 at most, and functions of the library.
pub fn accepted_graphs_are_lawful()
    ensures graph { (lib : Library) (bytes : List ℕ) (g : List Decl) → graph_of lib bytes ≡ Ok g → IsGraph g }
    ensures fits { (lib : Library) (bytes : List ℕ) (g : List Decl) → graph_of lib bytes ≡ Ok g → FitsAll lib g }
{}

/// A graph that may be accepted is one of the definitions: each declaration may follow those before it.
pub fn accepted_graphs_are_graphs()
    ensures { (g : List Decl) → IsGraph g → graphs.IsGraph g }
{}
