//! Why one declaration is refused behind those before it: a table of the checks in their order. Each line has as premises that the checks above it pass.

ghost use Rattle.std.specs.Prelude.{◌≡◌, ◌↔◌, ◌<◌, ◌≤◌, List, length, IsTrue, IsFalse, None, Some, Ok, Err};
ghost use Rattle.serde_json.specs.Data.{Data};
ghost use Rattle.model_functions.specs.Library.{Library};
ghost use Rattle.model_graph.specs.Graph.{Decl, Kind};
ghost use Rattle.model_graph.specs.Lawful.{variable_limit, width_limit, width_of, widths};
ghost use Rattle.model_values.specs.Name.{is_name};
ghost use Rattle.model_readings.specs.Graph.{Written, written_of, kind_read, declaration, decl_read, next_read};
ghost use Rattle.model_readings.specs.declared.graph_why.GraphWhy.{GraphWhy};
ghost use Rattle.model_readings.specs.declared.graph_why.GraphWhy.TheVariants as why;
ghost use Rattle.model_scripts.specs.Needs.{IsDeclared};
ghost use Rattle.model_program.specs.Declaration.{Takes, AreDeclared, IsUndeclared, AreSets, IsNoSet, HasFunction, IsDeclarationCause};

/// The form, the name, the inputs, the function and the width, in this order.
pub fn causes_of_declarations()
    ensures shape { (lib : Library) (before : List Decl) (d : Data)
        → (decl_read lib before d ≡ Err why.Shape ↔ written_of d ≡ None) }
    ensures name_shape { (lib : Library) (before : List Decl) (d : Data) (w : Written) → written_of d ≡ Some w
        → (decl_read lib before d ≡ Err why.NameShape ↔ IsFalse (is_name w.name)) }
    ensures name_taken { (lib : Library) (before : List Decl) (d : Data) (w : Written) → written_of d ≡ Some w → IsTrue (is_name w.name)
        → (decl_read lib before d ≡ Err why.NameTaken ↔ IsDeclared before w.name) }
    ensures unknown_input { (lib : Library) (before : List Decl) (d : Data) (w : Written) → written_of d ≡ Some w → IsTrue (is_name w.name) → ¬ IsDeclared before w.name
        → (decl_read lib before d ≡ Err why.UnknownInput ↔ IsUndeclared before (Takes w.form)) }
    ensures wrong_kind { (lib : Library) (before : List Decl) (d : Data) (w : Written) → written_of d ≡ Some w → IsTrue (is_name w.name) → ¬ IsDeclared before w.name
        → AreDeclared before (Takes w.form)
        → (decl_read lib before d ≡ Err why.WrongKind ↔ IsNoSet before (Takes w.form)) }
    ensures unknown_function { (lib : Library) (before : List Decl) (d : Data) (w : Written) → written_of d ≡ Some w → IsTrue (is_name w.name) → ¬ IsDeclared before w.name
        → AreDeclared before (Takes w.form) → AreSets before (Takes w.form)
        → (decl_read lib before d ≡ Err why.UnknownFunction ↔ ¬ HasFunction lib w.form) }
    ensures too_wide { (lib : Library) (before : List Decl) (d : Data) (w : Written) (kind : Kind) → written_of d ≡ Some w → IsTrue (is_name w.name) → ¬ IsDeclared before w.name
        → kind_read lib before w.form ≡ Ok kind
        → (decl_read lib before d ≡ Err why.TooWide ↔ width_limit < width_of kind (widths before)) }
    ensures accepted { (lib : Library) (before : List Decl) (d : Data) (w : Written) (kind : Kind) → written_of d ≡ Some w → IsTrue (is_name w.name) → ¬ IsDeclared before w.name
        → kind_read lib before w.form ≡ Ok kind → width_of kind (widths before) ≤ width_limit
        → decl_read lib before d ≡ Ok (declaration w.name kind) }
    ensures kind { (lib : Library) (before : List Decl) (w : Written)
        → (((kind : Kind) × (kind_read lib before w.form ≡ Ok kind)) ↔ (AreDeclared before (Takes w.form) × AreSets before (Takes w.form) × HasFunction lib w.form)) }
    ensures only { (lib : Library) (before : List Decl) (d : Data) (cause : GraphWhy) → decl_read lib before d ≡ Err cause → IsDeclarationCause cause }
{}

/// Whether there is room is looked at before the declaration is.
pub fn causes_of_next_declarations()
    ensures too_many { (lib : Library) (before : List Decl) (d : Data)
        → (next_read lib before d ≡ Err why.TooMany ↔ variable_limit ≤ length before) }
    ensures room { (lib : Library) (before : List Decl) (d : Data) → length before < variable_limit
        → next_read lib before d ≡ decl_read lib before d }
{}
