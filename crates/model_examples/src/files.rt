//! Worked exports and merges, by computation.

ghost use Rattle.std.specs.Prelude.{◌≡◌, ◌++◌, [], ◌∷◌, codes, true, false, None, Ok, Err};
ghost use Rattle.model_graph.specs.Spelling.{spelled};
ghost use Rattle.model_world.specs.World.{fresh_peer};
ghost use Rattle.model_wire.specs.declared.wire_why.WireWhy.TheVariants.{Short};
ghost use Rattle.model_scripts.specs.declared.script_why.ScriptWhy.TheVariants.{NoSuchNode};
ghost use Rattle.model_program.specs.Program.{export_answer};
ghost use Rattle.model_program.specs.Merge.{may_take, file_joined, merge_answer, joined};
ghost use Rattle.model_program.specs.Line.{line_of};
ghost use Rattle.model_examples.specs.Graphs.{set_graph};
ghost use Rattle.model_examples.specs.Files.{grown_graph, other_graph, counter_graph, first_message, second_message, add_script, cut_bytes, first_bytes};
ghost use Rattle.model_examples.specs.Processes.{union_graph, union_script};
ghost use Rattle.model_program.specs.declared.refusal.Refusal.TheVariants as refusal;
ghost use Rattle.model_program.specs.declared.failure.Failure.TheVariants.{Refused};
ghost use Rattle.model_program.specs.declared.state_why.StateWhy.TheVariants.{Wire};

/// A script of one node and four commands has no node 1; of two nodes, the one that added 5 exports this.
#[tactic(auto, using(crate::proofs::FileLaws::exports))]
pub fn a_node_exports_its_message()
    ensures refused { export_answer 1 union_graph union_script ≡ Err (refusal.Script 5 NoSuchNode) }
    ensures exported { export_answer 0 set_graph add_script ≡ Ok (spelled first_message) }
{}

/// Two messages show what both hold. A message of fewer sources is of the graph that grew from its own, and of no graph where a source has another name or kind, or is missing, and of no other number of nodes.
#[tactic(auto, using(crate::proofs::FileLaws::merges))]
pub fn messages_of_a_graph_are_merged()
    ensures merged { merge_answer set_graph 2 (joined set_graph (first_message ∷ second_message ∷ [])) ≡ Ok (codes "a [5,6]" ++ 10 ∷ codes "known 1 1" ++ 10 ∷ []) }
    ensures grown { merge_answer grown_graph 1 (joined grown_graph (first_message ∷ [])) ≡ Ok (codes "a [5]" ++ 10 ∷ codes "u [5]" ++ 10 ∷ codes "c 0" ++ 10 ∷ codes "known 1 0" ++ 10 ∷ []) }
    ensures own_taken { may_take set_graph (fresh_peer set_graph 2) first_message ≡ true }
    ensures grown_taken { may_take grown_graph (fresh_peer grown_graph 2) first_message ≡ true }
    ensures other_name { may_take other_graph (fresh_peer other_graph 2) first_message ≡ false }
    ensures other_kind { may_take counter_graph (fresh_peer counter_graph 2) first_message ≡ false }
    ensures missing { may_take [] (fresh_peer [] 2) first_message ≡ false }
    ensures other_nodes { may_take set_graph (fresh_peer set_graph 3) first_message ≡ false }
{}

/// The first file of a merge, whole and without its last byte, and the line of the refusal.
#[tactic(auto, using(crate::proofs::FileLaws::files))]
pub fn files_are_joined_or_refused_at_a_place()
    ensures whole { file_joined set_graph 0 None first_bytes ≡ Ok (joined set_graph (first_message ∷ [])) }
    ensures cut { file_joined set_graph 0 None cut_bytes ≡ Err (refusal.State 2 48 (Wire Short)) }
    ensures line { line_of (codes "merge" ∷ codes "g" ∷ codes "f0" ∷ []) (Refused (refusal.State 2 48 (Wire Short))) ≡ codes "state f0 48 Short" ++ 10 ∷ [] }
{}
