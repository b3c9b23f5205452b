//! Why one command is refused: a table of the checks in their order. Each line has as premises that the checks above it pass.

ghost use Rattle.std.specs.Prelude.{◌≡◌, ◌↔◌, ℕ, None, Some, Ok, Err};
ghost use Rattle.serde_json.specs.Data.{Data};
ghost use Rattle.model_functions.specs.Library.{Library};
ghost use Rattle.model_readings.specs.declared.graph_why.GraphWhy.{GraphWhy};
ghost use Rattle.model_readings.specs.Graph.{decl_read};
ghost use Rattle.model_scripts.specs.declared.script_why.ScriptWhy.{ScriptWhy};
ghost use Rattle.model_scripts.specs.declared.script_why.ScriptWhy.TheVariants as why;
ghost use Rattle.model_scripts.specs.Word.{Word, declare, word_of};
ghost use Rattle.model_scripts.specs.Progress.{Progress, after};
ghost use Rattle.model_scripts.specs.Parts.{command_of};
ghost use Rattle.model_scripts.specs.Script.{word_read, next_read, why_declared};
ghost use Rattle.model_scripts.specs.Needs.{CanDeclare, HasNode, HasVar, HasMark, HasNewMark, IsRight, IsBrought, WasSent, HasRoom, IsDeclarationCause, IsCommandCause};

/// The form, what is declared, the node, the variable, the mark, the new mark, what the word works on, what it brings, the message, and the room, in this order.
pub fn causes_of_commands()
    ensures shape { (lib : Library) (nodes : ℕ) (p : Progress) (d : Data)
        → (word_read lib nodes p d ≡ Err why.Shape ↔ word_of d ≡ None) }
    ensures declared { (lib : Library) (nodes : ℕ) (p : Progress) (d tree : Data) (cause : GraphWhy) → word_of d ≡ Some (declare tree) → IsDeclarationCause cause
        → (word_read lib nodes p d ≡ Err (why_declared cause) ↔ decl_read lib p.stage.graph tree ≡ Err cause) }
    ensures no_such_node { (lib : Library) (nodes : ℕ) (p : Progress) (d : Data) (w : Word) → word_of d ≡ Some w → CanDeclare lib p.stage.graph w
        → (word_read lib nodes p d ≡ Err why.NoSuchNode ↔ ¬ HasNode nodes w) }
    ensures unknown_var { (lib : Library) (nodes : ℕ) (p : Progress) (d : Data) (w : Word) → word_of d ≡ Some w → CanDeclare lib p.stage.graph w → HasNode nodes w
        → (word_read lib nodes p d ≡ Err why.UnknownVar ↔ ¬ HasVar p.stage.graph w) }
    ensures unknown_mark { (lib : Library) (nodes : ℕ) (p : Progress) (d : Data) (w : Word) → word_of d ≡ Some w → CanDeclare lib p.stage.graph w → HasNode nodes w → HasVar p.stage.graph w
        → (word_read lib nodes p d ≡ Err why.UnknownMark ↔ ¬ HasMark p.names w) }
    ensures mark_taken { (lib : Library) (nodes : ℕ) (p : Progress) (d : Data) (w : Word) → word_of d ≡ Some w → CanDeclare lib p.stage.graph w → HasNode nodes w → HasVar p.stage.graph w → HasMark p.names w
        → (word_read lib nodes p d ≡ Err why.MarkTaken ↔ ¬ HasNewMark p.names w) }
    ensures wrong_op { (lib : Library) (nodes : ℕ) (p : Progress) (d : Data) (w : Word) → word_of d ≡ Some w → CanDeclare lib p.stage.graph w → HasNode nodes w → HasVar p.stage.graph w → HasMark p.names w → HasNewMark p.names w
        → (word_read lib nodes p d ≡ Err why.WrongOp ↔ ¬ IsRight nodes p w) }
    ensures value_refused { (lib : Library) (nodes : ℕ) (p : Progress) (d : Data) (w : Word) → word_of d ≡ Some w → CanDeclare lib p.stage.graph w → HasNode nodes w → HasVar p.stage.graph w → HasMark p.names w → HasNewMark p.names w → IsRight nodes p w
        → (word_read lib nodes p d ≡ Err why.ValueRefused ↔ ¬ IsBrought w) }
    ensures not_sent { (lib : Library) (nodes : ℕ) (p : Progress) (d : Data) (w : Word) → word_of d ≡ Some w → CanDeclare lib p.stage.graph w → HasNode nodes w → HasVar p.stage.graph w → HasMark p.names w → HasNewMark p.names w → IsRight nodes p w → IsBrought w
        → (word_read lib nodes p d ≡ Err why.NotSent ↔ ¬ WasSent p.stage.sent w) }
    ensures too_many { (lib : Library) (nodes : ℕ) (p : Progress) (d : Data) (w : Word) → word_of d ≡ Some w → CanDeclare lib p.stage.graph w → HasNode nodes w → HasVar p.stage.graph w → HasMark p.names w → HasNewMark p.names w → IsRight nodes p w → IsBrought w → WasSent p.stage.sent w
        → (word_read lib nodes p d ≡ Err why.TooMany ↔ ¬ HasRoom p w) }
    ensures accepted { (lib : Library) (nodes : ℕ) (p : Progress) (d : Data) (w : Word) → word_of d ≡ Some w
        → (word_read lib nodes p d ≡ Ok w ↔ (CanDeclare lib p.stage.graph w × HasNode nodes w × HasVar p.stage.graph w × HasMark p.names w × HasNewMark p.names w × IsRight nodes p w × IsBrought w × WasSent p.stage.sent w × HasRoom p w)) }
    ensures only { (lib : Library) (nodes : ℕ) (p : Progress) (d : Data) (cause : ScriptWhy) → word_read lib nodes p d ≡ Err cause → IsCommandCause cause }
{}

/// A command is refused as its word is; where its word is accepted, it is the command that the word is.
pub fn commands_are_read_by_their_words()
    ensures refused { (lib : Library) (nodes : ℕ) (p : Progress) (d : Data) (cause : ScriptWhy) → (next_read lib nodes p d ≡ Err cause ↔ word_read lib nodes p d ≡ Err cause) }
    ensures accepted { (lib : Library) (nodes : ℕ) (p : Progress) (d : Data) (w : Word) → word_read lib nodes p d ≡ Ok w → next_read lib nodes p d ≡ Ok (after nodes p w (command_of lib nodes p w)) }
{}
