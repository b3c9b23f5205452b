//! What `load` makes of a seed and a count: a graph and a script, as bytes. There is nothing to run here.

ghost use Rattle.std.specs.Prelude.{◌≡◌, codes};
ghost use Rattle.model_program.specs.Generator.{load_script};

/// The script of seed 1 and four commands, whole.
#[tactic(auto, using(crate::proofs::ScriptLaws::four_commands))]
pub fn a_script_of_four_commands()
    ensures { load_script 1 4 ≡ codes "[[\"nodes\",4],[\"add\",2,\"a\",526],[\"inc\",2,\"c\",180],[\"add\",1,\"a\",316],[\"add\",3,\"b\",547],[\"sync\"]]" }
{}
